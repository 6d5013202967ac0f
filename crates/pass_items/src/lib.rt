// The items as a host has them: a slice of structs, unpacked into the plain lists that the pass reads, one list of
// numbers and one of codes, by columns.
#![tactic(auto)]

ghost use Rattle.std.specs.Prelude.{◌≡◌, ◌++◌, ◌*◌, ◌^◌, ◌<◌, ◌≤◌, min, length, take, drop};
ghost use Rattle.pass_items.specs.Items.{numbers_of, codes_of};
ghost use Rattle.pass_items.specs.Parts.{numbers_in, codes_in, stored};

// An item: fourteen numbers and eight codes, each read as the pass reads its column. A flag is a code: 0 no, 1 yes; the
// pass refuses any other.
#[repr(C)]
#[derive(Clone, Copy)]
pub struct Item {
    pub main_base: f32,
    pub main_minimum: f32,
    pub main_maximum: f32,
    pub main_edges: f32,
    pub grow: f32,
    pub shrink: f32,
    pub main_start: f32,
    pub main_end: f32,
    pub cross_measured: f32,
    pub cross_minimum: f32,
    pub cross_maximum: f32,
    pub cross_edges: f32,
    pub cross_start: f32,
    pub cross_end: f32,
    pub has_main_maximum: u32,
    pub auto_main_start: u32,
    pub auto_main_end: u32,
    pub has_cross_maximum: u32,
    pub auto_cross_start: u32,
    pub auto_cross_end: u32,
    pub align_self: u32,
    pub auto_cross_size: u32,
}

impl Item {
    // Its numbers, in the order of their columns.
    fn numbers(self) -> [f32; 14]
        ensures { result ≡ numbers_in self }
    {
        [
            self.main_base,
            self.main_minimum,
            self.main_maximum,
            self.main_edges,
            self.grow,
            self.shrink,
            self.main_start,
            self.main_end,
            self.cross_measured,
            self.cross_minimum,
            self.cross_maximum,
            self.cross_edges,
            self.cross_start,
            self.cross_end,
        ]
    }

    // Its codes, in the order of theirs.
    fn codes(self) -> [u32; 8]
        ensures { result ≡ codes_in self }
    {
        [
            self.has_main_maximum,
            self.auto_main_start,
            self.auto_main_end,
            self.has_cross_maximum,
            self.auto_cross_start,
            self.auto_cross_end,
            self.align_self,
            self.auto_cross_size,
        ]
    }
}

// How many of n items are unpacked: all, but of more than 1,024 only so many that the pass still sees too many.
pub fn held(n: usize) -> usize
    ensures { result ≡ min n 1025 }
{
    n.min(1025)
}

// The fields of item i of m, each into its column of m cells. The place steps from column to column: so, and with the
// items by their index in `unpack`, the compiler stores four items at once, where the columns of 1,024 items take the
// same lines of the cache. No entry point.
fn put_fields<T: Copy>(cells: &mut [T], m: usize, i: usize, fields: &[T])
    requires { (i < m) × (length fields.now * m ≤ length cells.old) × (length cells.old < 2 ^ 63) }
    ensures { cells.new ≡ stored m cells.old i fields.now }
{
    let mut at = i;
    for &field in fields {
        cells[at] = field;
        at += m;
    }
}

// The first m items, by columns; every cell past them is as it was. Numbers and codes go into lists of their own, as
// the pass takes them. No entry point.
pub fn unpack(items: &[Item], m: usize, nums: &mut [f32], codes: &mut [u32])
    requires { (m ≤ length items.now) × ((14 * m ≤ length nums.old) × (8 * m ≤ length codes.old)) }
    ensures { (nums.new ≡ numbers_of (take m items.now) ++ drop (14 * m) nums.old)
        × (codes.new ≡ codes_of (take m items.now) ++ drop (8 * m) codes.old) }
{
    for i in 0..m {
        let item = items[i];
        put_fields(nums, m, i, &item.numbers());
        put_fields(codes, m, i, &item.codes());
    }
}
