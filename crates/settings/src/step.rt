//! What the client of a plan's session does. What its session does then stands above.

/// One step of a client whose session is in a plan.
#[derive(Drop)]
pub enum Step {
    /// The client sends these bytes.
    Say(Vec<u8>),
    /// While it idles its session has turns, until so many changes were shown since SELECT or
    /// EXAMINE.
    Await(u64),
}
