//! Statuses of answers.

ghost use Rattle.std.specs.Prelude.{◌≡◌, ◌≤◌, length};
ghost use Rattle.bike_http_response.specs.Status.{code_of, reason_of};

/// The status of an answer (RFC 9110, section 15).
#[derive(Clone, Copy)]
pub enum Status {
    /// 200
    Ok,
    /// 400
    BadRequest,
    /// 404
    NotFound,
    /// 405
    MethodNotAllowed,
    /// 409
    Conflict,
    /// 413
    PayloadTooLarge,
    /// 503
    ServiceUnavailable,
}

impl Status {
    /// Its code.
    pub fn code(self) -> u16
        ensures { result ≡ code_of self }
    {
        match self {
            Status::Ok => 200,
            Status::BadRequest => 400,
            Status::NotFound => 404,
            Status::MethodNotAllowed => 405,
            Status::Conflict => 409,
            Status::PayloadTooLarge => 413,
            Status::ServiceUnavailable => 503,
        }
    }

    /// Its reason, as RFC 9110 names it (that of 413 by its older name).
    pub(crate) fn reason(self) -> &'static str
        ensures value { result.now ≡ reason_of self }
        ensures short { length result.now ≤ 19 }
    {
        match self {
            Status::Ok => "OK",
            Status::BadRequest => "Bad Request",
            Status::NotFound => "Not Found",
            Status::MethodNotAllowed => "Method Not Allowed",
            Status::Conflict => "Conflict",
            Status::PayloadTooLarge => "Payload Too Large",
            Status::ServiceUnavailable => "Service Unavailable",
        }
    }
}
