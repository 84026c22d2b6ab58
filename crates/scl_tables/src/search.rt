//! The search for the row that owns a word, by binary search.
ghost use Rattle.std.specs.Prelude.{◌≡◌, ℕ, ◌+◌, ◌*◌, ◌<◌, ◌≤◌, length, nat_eq, OnSome, slice_index_or, true, false};
ghost use Rattle.std.specs.Cmp.Lexicographic.{slice_cmp};
ghost use Rattle.std.specs.Ordering.{nat_cmp, is_gt};
ghost use Rattle.scl_values.specs.Row.{Row, row_at};
ghost use Rattle.scl_values.specs.Tables.{is_table, owner};
ghost use Rattle.scl_tables.specs.Probes.{bits, CountsUpTo, Rises};
ghost use Rattle.std.specs.List.{common_prefix_len};

use crate::rows::{Probes, RowStore};
use scl_values::ArgRow;

/// The number of rows whose flags are at most the key, by bytes.
fn rows_up_to<K>(rows: &RowStore<'_, K>, key: &[u8], probes: &mut Probes) -> usize
    requires { is_table rows.now ≡ true }
    ensures bound { result ≤ length rows.now }
    ensures below { (k : ℕ) (d : Row K) → k < result → is_gt (slice_cmp nat_cmp (slice_index_or rows.now k d).flag key.now) ≡ false }
    ensures above { (k : ℕ) (d : Row K) → result ≤ k → k < length rows.now
        → is_gt (slice_cmp nat_cmp (slice_index_or rows.now k d).flag key.now) ≡ true }
    ensures count { CountsUpTo probes.old probes.new (bits (length rows.now)) }
{
    let mut low = 0;
    let mut high = rows.len();
    while low < high {
        let middle = low + (high - low) / 2;
        let row = rows.look(middle, probes);
        if row.flag().as_bytes().cmp(key).is_gt() {
            high = middle;
        } else {
            low = middle + 1;
        }
    }
    low
}

/// The length of the common prefix of two words.
fn common_len(a: &[u8], b: &[u8]) -> usize
    ensures { result ≡ common_prefix_len nat_eq a.now b.now }
{
    let mut count = 0;
    while count < a.len() && count < b.len() && a[count] == b[count] {
        count += 1;
    }
    count
}

/// The longest row that fits a word.
///
/// Take the last row whose flag is at most a prefix of the word. Either it fits, or every fitting flag is shorter than what
/// that flag and the prefix share. Then the search goes on with the shared part, or with one byte less if the shared part is
/// the whole flag.
pub(crate) fn longest_fit<'a, K>(
    rows: &RowStore<'a, K>,
    word: &[u8],
    probes: &mut Probes,
) -> Option<&'a ArgRow<K>>
    requires { is_table rows.now ≡ true }
    ensures owner { row_at result ≡ owner rows.now word.now }
    ensures count { CountsUpTo probes.old probes.new ((length word.now + 1) * (bits (length rows.now) + 1)) }
    ensures rises { OnSome result (Rises probes.old probes.new) }
{
    let mut len = word.len();
    loop {
        let found = rows_up_to(rows, &word[..len], probes);
        if found == 0 {
            return None;
        }
        let row = rows.look(found - 1, probes);
        if row.fits(word) {
            return Some(row);
        }
        let flag = row.flag().as_bytes();
        let shared = common_len(flag, &word[..len]);
        if shared < flag.len() {
            len = shared;
        } else if shared == 0 {
            return None;
        } else {
            len = shared - 1;
        }
    }
}
