/// The byte order of numbers, as the architecture byte of a definition gives it.
#[derive(Clone, Copy, Debug, PartialEq, Eq)]
pub enum Arch {
    /// Low byte first.
    Little,
    /// High byte first.
    Big,
}
