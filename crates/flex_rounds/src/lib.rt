// Flexible lengths, CSS-FLEX 9.7, of a line: the rounds that share the free space out over its items, which stand in a
// table. The parts of a call, for calls that check what they take: none is an entry point. A line's inner size and its
// gap stay two numbers, as the definitions take them: a struct of the two would be no plainer.
#![tactic(auto)]

pub mod line;
mod rounds;
