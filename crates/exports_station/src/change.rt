// A change of a book. It is no `Call` of a station: a call lends the messages and frames that it shows, and these a change has not.
use code::description::Description;

#[derive(Clone, Copy, Debug, PartialEq, Eq)]
pub(crate) enum Change {
    // a description with a reach under a number
    Enter(u8, Description, u16),
    // a lower reach
    Narrow(u8, u16),
    Retire(u8),
}
