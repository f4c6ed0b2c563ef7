//! The statuses of replies.
ghost use Rattle.std.specs.Prelude.{◌≡◌, ◌≤◌, length};

/// How a message fared (RFC 9110, section 15).
#[derive(Clone, Copy)]
pub enum Status {
    Ok,
    NoContent,
    PartialContent,
    NotModified,
    BadRequest,
    Forbidden,
    NotFound,
    MethodNotAllowed,
    Conflict,
    LengthRequired,
    PreconditionFailed,
    RangeNotSatisfiable,
    InternalServerError,
    NotImplemented,
}

impl Status {
    ghost use Rattle.s3_terms.specs.Status.{number_of, reason_phrase, tells_size};

    /// Its number.
    pub fn number(self) -> u16
        ensures { result ≡ number_of self }
    {
        match self {
            Status::Ok => 200,
            Status::NoContent => 204,
            Status::PartialContent => 206,
            Status::NotModified => 304,
            Status::BadRequest => 400,
            Status::Forbidden => 403,
            Status::NotFound => 404,
            Status::MethodNotAllowed => 405,
            Status::Conflict => 409,
            Status::LengthRequired => 411,
            Status::PreconditionFailed => 412,
            Status::RangeNotSatisfiable => 416,
            Status::InternalServerError => 500,
            Status::NotImplemented => 501,
        }
    }

    /// Its reason phrase: 27 bytes at most.
    pub fn reason(self) -> &'static str
        ensures text { result.now ≡ reason_phrase self }
        ensures bound { length result.now ≤ 27 }
    {
        match self {
            Status::Ok => "OK",
            Status::NoContent => "No Content",
            Status::PartialContent => "Partial Content",
            Status::NotModified => "Not Modified",
            Status::BadRequest => "Bad Request",
            Status::Forbidden => "Forbidden",
            Status::NotFound => "Not Found",
            Status::MethodNotAllowed => "Method Not Allowed",
            Status::Conflict => "Conflict",
            Status::LengthRequired => "Length Required",
            Status::PreconditionFailed => "Precondition Failed",
            Status::RangeNotSatisfiable => "Range Not Satisfiable",
            Status::InternalServerError => "Internal Server Error",
            Status::NotImplemented => "Not Implemented",
        }
    }

    /// Whether a reply with it tells the size of its body.
    pub fn tells_size(self) -> bool
        ensures { result ≡ tells_size self }
    {
        match self {
            Status::NoContent | Status::NotModified => false,
            Status::Ok
            | Status::PartialContent
            | Status::BadRequest
            | Status::Forbidden
            | Status::NotFound
            | Status::MethodNotAllowed
            | Status::Conflict
            | Status::LengthRequired
            | Status::PreconditionFailed
            | Status::RangeNotSatisfiable
            | Status::InternalServerError
            | Status::NotImplemented => true,
        }
    }
}
