// The main axis of one line: document 01, "Main axis" (CSS-FLEX 9.5).
#![tactic(auto)]

ghost use Rattle.std.specs.Prelude.{◌≡◌, ◌≤◌, ◌-◌};
ghost use Rattle.place_main.specs.MainAxis.{count};
ghost use Rattle.place_main.specs.Lists.{lists_of, part};
ghost use Rattle.place_main.specs.Parts.{MainOneLength};

pub mod main_axis; // main_axis.rt: auto margins and offsets of one accepted line
pub mod main_call; // main_call.rt: the call, on any bits

// The items of a line along it, in lists: worked-out targets and margins. A margin is auto where its code is not 0. No
// invariant says that the lists are of one length: a host hands over lists of any lengths, and check 2 looks at them
// here.
#[derive(Clone, Copy)]
pub struct LineLists<'a> {
    pub targets: &'a [f32],
    pub start: &'a [f32],
    pub end: &'a [f32],
    pub auto_start: &'a [u32],
    pub auto_end: &'a [u32],
}

impl<'a> LineLists<'a> {
    // The items from one up to another, as the items of a line. No entry point: the lists have them.
    pub fn part(self, from: usize, to: usize) -> LineLists<'a>
        requires one_length { MainOneLength (lists_of self) }
        requires in_lists { (from ≤ to) × (to ≤ count (lists_of self)) }
        ensures is_part { lists_of result ≡ part from to (lists_of self.entry) }
        ensures one_length { MainOneLength (lists_of result) }
        ensures counted { count (lists_of result) ≡ to - from }
    {
        LineLists {
            targets: &self.targets[from..to],
            start: &self.start[from..to],
            end: &self.end[from..to],
            auto_start: &self.auto_start[from..to],
            auto_end: &self.auto_end[from..to],
        }
    }
}
