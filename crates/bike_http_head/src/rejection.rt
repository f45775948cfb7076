//! What a request is answered at once.

/// The method of a path.
#[derive(Clone, Copy)]
pub enum Allow {
    /// GET
    Get,
    /// POST
    Post,
}

/// Why a request is answered at once, whatever the operator holds.
#[derive(Clone, Copy)]
pub enum Rejection {
    /// The head or the body can't be read.
    BadRequest,
    /// A member of the body is missing, of another kind or out of its bounds.
    BadField,
    /// The path takes no route, or its part isn't the number or the identifier that the route wants.
    NotFound,
    /// The path's method is this one, and not the request's.
    MethodNotAllowed(Allow),
    /// The body is longer than 16,384 bytes.
    TooLarge,
}
