// The order of the lines of a table: an entry for each, with its row and the key of its first term.
ghost use Rattle.std.specs.Prelude.{◌≡◌, ◌≤◌, ◌<◌, ◌^◌, length, get_or, take};
ghost use Rattle.table.specs.Rows.{row_of, key_in, ahead as leading, IsFalling};

// The row of the line at a place. It is for this crate.
pub fn row_at(order: &[u64], at: usize) -> usize
    requires { at < length order.now }
    ensures { result ≡ row_of (get_or order.now at 0) }
{
    let entry = order[at];
    (entry % 128) as usize
}

// The key of the first term of the line at a place. It is for this crate.
pub fn key_at(order: &[u64], at: usize) -> u64
    requires { at < length order.now }
    ensures { result ≡ key_in (get_or order.now at 0) }
{
    let entry = order[at];
    entry / 128
}

// 1 where the key of an entry is above the given one, else 0. It is worked out without a branch: in a search nothing could
// guess which way it goes.
fn above(entry: u64, key: u64) -> usize
    requires { key < 2 ^ 38 }
    ensures { (key < key_in entry → result ≡ 1) × (key_in entry ≤ key → result ≡ 0) }
{
    ((entry / 128 + 9223372036854775807 - key) / 9223372036854775808) as usize
}

// How many of the first entries have a key above the given one, by halving: the answer lies from `low` to `low + size`. It is
// for this crate's search, where keys fall. The loop has no branch but its end, since nothing could guess the others: `low`
// grows by a product.
pub fn ahead(lines: usize, order: &[u64], key: u64) -> usize
    requires { (lines ≤ length order.now) × IsFalling (take lines order.now) × (key < 2 ^ 38) }
    ensures { result ≡ leading key (take lines order.now) }
{
    let mut low: usize = 0;
    let mut size = lines;
    while 0 < size {
        let half = size - size / 2;
        let entry = order[low + half - 1];
        low += half * above(entry, key);
        size -= half;
    }
    low
}
