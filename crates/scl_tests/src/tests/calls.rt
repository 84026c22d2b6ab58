//! Calls that no program makes: their clauses say what they give, and these tests that memory suffices for it.
use super::words;
use scl_cl::args::{Argument, FlagTable, FlagTree, SearchableArgInfo, looks, split_os_string_arg};
use scl_cl::gcc::{ARGS, ArgData, module_file_path};
use scl_cl::text::{ExpandAtArgs, GnuExpand, MsvcExpand};
use scl_cl::{View, gcc, tasking_vx};
use std::alloc::Global;
use std::test::Fail;

fn has_words(alloc: Global, option: &Argument<tasking_vx::ArgData>) -> bool {
    option.to_os_string(alloc).is_ok()
        && matches!(option.iter_os_strings(alloc).next(), Some(Ok(_)))
}

#[test]
fn an_option_is_printed(rt: HostRuntime) -> Result<(), Fail> {
    let option = Argument::Raw(Vec::from_slice(rt.alloc(), b"a=b")?);
    assert!(rt; has_words(rt.alloc(), &option));
    Ok(())
}

#[test]
fn texts_are_cut(rt: HostRuntime) -> Result<(), Fail> {
    let text = Vec::from_slice(rt.alloc(), b"a=b")?;
    assert!(rt; split_os_string_arg(rt.alloc(), text, "=").is_ok());
    assert!(rt; module_file_path(rt.alloc(), b"n=p").is_ok());
    Ok(())
}

fn expands_as_gnu(alloc: Global, words: &[Vec<u8>], view: &View) -> bool {
    matches!(GnuExpand::new(alloc, b"", words, view).next(), Some(Ok(_)))
}

fn expands_as_msvc(alloc: Global, words: &[Vec<u8>], view: &View) -> bool {
    matches!(MsvcExpand::new(alloc, b"", words, view).next(), Some(Ok(_)))
}

fn expands_as_diab(alloc: Global, words: &[Vec<u8>], view: &View) -> bool {
    matches!(
        ExpandAtArgs::new(alloc, b"", words, view).next(),
        Some(Ok(_))
    )
}

#[test]
fn words_are_expanded(rt: HostRuntime) -> Result<(), Fail> {
    let words = words(rt.alloc())?;
    let view = View::new(rt.alloc());
    assert!(rt; expands_as_gnu(rt.alloc(), &words, &view));
    assert!(rt; expands_as_msvc(rt.alloc(), &words, &view));
    assert!(rt; expands_as_diab(rt.alloc(), &words, &view));
    Ok(())
}

/// The looks of a search for each flag of Gcc's.
fn looks_of_all<S: SearchableArgInfo<ArgData>>(tables: &S) -> u64 {
    let mut sum: u64 = 0;
    for row in ARGS {
        sum = sum.saturating_add(looks(tables, row.flag().as_bytes()));
    }
    sum
}

#[test]
fn looks_are_counted(rt: HostRuntime) -> Result<(), Fail> {
    assert!(rt; looks_of_all(&gcc::table()) >= 300);
    let table = FlagTable::<ArgData>::new(ARGS).ok_or("no table")?;
    assert!(rt; looks_of_all(&FlagTree::build(rt.alloc(), &table)?) >= 300);
    Ok(())
}
