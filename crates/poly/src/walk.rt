// What a search for the period answers.
#[derive(Clone, Copy, PartialEq, Eq, Debug)]
pub struct Walk {
    // the period, if there is one up to 32,768
    pub period: Option<u16>,
    // the steps made: the period, or 32,768
    pub steps: u16,
}
