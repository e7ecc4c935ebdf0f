// An entry of a book: a number, the code that it stands for, and the longest word.
use code::description::Description;

#[derive(Clone, Copy, Default, PartialEq, Eq, Debug)]
pub struct Entry {
    pub number: u8,
    pub description: Description,
    pub reach: u16,
}
