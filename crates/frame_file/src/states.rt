// How far a run has come: what a line may do depends on it.

#[derive(Clone, Copy, PartialEq, Eq, Debug)]
pub enum RunState {
    // no M line has been accepted
    BeforeModel,
    Unanalysed,
    Analysed,
}
