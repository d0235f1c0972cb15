/// Why a line is no line of a script: the first that holds.
#[derive(Clone, Copy, Debug, PartialEq, Eq)]
pub enum ScriptCause {
    /// It has the form of no line.
    Form,
    /// A number is out of its range.
    Range,
    /// Its cycle is lower than that of the act before.
    Order,
}
