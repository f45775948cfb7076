//! What a desk remembers of its operator between two requests.

use bike_booking::Figures;

/// What is remembered: it is found once, and what a request changes of it follows from the request.
#[derive(Clone, Copy)]
pub struct DeskMemory {
    /// Whether each open rental was found to be its rider's newest. It stays so with every request.
    pub newest_tells: bool,
    /// The operator's figures, once they were read.
    pub figures: Option<Figures>,
}
