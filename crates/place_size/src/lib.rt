// The cross size of a line: document 01, "Cross axis", first half (CSS-FLEX 9.4, steps 7 and 8).
#![tactic(auto)]

ghost use Rattle.std.specs.Prelude.{◌≡◌, ◌≤◌, ◌-◌};
ghost use Rattle.place_size.specs.CrossSize.{count};
ghost use Rattle.place_size.specs.Lists.{lists_of, part};
ghost use Rattle.place_size.specs.Parts.{CrossOneLength};

pub mod container; // container.rt: the container's inner cross size and its bounds
pub mod cross_size; // cross_size.rt: the cross size of a line from its items

// The items of a line across it, in lists. A maximum counts where the code of `capped` is not 0, and a margin is auto
// where its code is not 0; `edges` are padding plus border. No invariant says that the lists are of one length: a host
// hands over lists of any lengths, and check 2 looks at them here.
#[derive(Clone, Copy)]
pub struct CrossLists<'a> {
    pub measured: &'a [f32],
    pub minimum: &'a [f32],
    pub maximum: &'a [f32],
    pub capped: &'a [u32],
    pub edges: &'a [f32],
    pub start: &'a [f32],
    pub end: &'a [f32],
    pub auto_start: &'a [u32],
    pub auto_end: &'a [u32],
}

impl<'a> CrossLists<'a> {
    // The items from one up to another, as the items of a line. No entry point: the lists have them.
    pub fn part(self, from: usize, to: usize) -> CrossLists<'a>
        requires one_length { CrossOneLength (lists_of self) }
        requires in_lists { (from ≤ to) × (to ≤ count (lists_of self)) }
        ensures is_part { lists_of result ≡ part from to (lists_of self.entry) }
        ensures one_length { CrossOneLength (lists_of result) }
        ensures counted { count (lists_of result) ≡ to - from }
    {
        CrossLists {
            measured: &self.measured[from..to],
            minimum: &self.minimum[from..to],
            maximum: &self.maximum[from..to],
            capped: &self.capped[from..to],
            edges: &self.edges[from..to],
            start: &self.start[from..to],
            end: &self.end[from..to],
            auto_start: &self.auto_start[from..to],
            auto_end: &self.auto_end[from..to],
        }
    }
}
