//! Each compiler's struct reads a command line, and builds its command and runs: what they are, its clauses say.
use super::words;
use scl_cl::clang::Clang;
use scl_cl::diab::Diab;
use scl_cl::gcc::Gcc;
use scl_cl::msvc::Msvc;
use scl_cl::tasking_vx::TaskingVX;
use scl_cl::{CCompilerImpl, CompilerArguments, ParsedArguments, View};
use std::alloc::Global;
use std::test::Fail;

fn builds<C: CCompilerImpl>(
    alloc: Global,
    compiler: &C,
    record: &ParsedArguments,
    view: &View,
) -> bool {
    compiler
        .preprocess_passes(alloc, record, false, false, false)
        .is_ok()
        && compiler
            .generate_compile_commands(alloc, b"", record, b"", &[], view)
            .is_ok()
}

fn reads<C: CCompilerImpl>(alloc: Global, compiler: &C, words: &[Vec<u8>], view: &View) -> bool {
    match compiler.parse_arguments(alloc, words, b"", &[], view) {
        Ok(CompilerArguments::Ok(record)) => builds(alloc, compiler, &record, view),
        Ok(_) | Err(_) => false,
    }
}

#[test]
fn each_compiler_reads(rt: HostRuntime) -> Result<(), Fail> {
    let words = words(rt.alloc())?;
    let view = View::new(rt.alloc());
    assert!(rt; reads(rt.alloc(), &Gcc::new(false), &words, &view));
    assert!(rt; reads(rt.alloc(), &Clang::new(false), &words, &view));
    assert!(rt;
        reads(
            rt.alloc(),
            &Msvc::new(false, String::new(rt.alloc())),
            &words,
            &view
        )
    );
    assert!(rt; reads(rt.alloc(), &Diab::new(), &words, &view));
    assert!(rt; reads(rt.alloc(), &TaskingVX, &words, &view));
    Ok(())
}
