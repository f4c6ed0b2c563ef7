//! The methods of requests.
ghost use Rattle.std.specs.Prelude.{◌≡◌};
ghost use Rattle.s3_http_heads.specs.Method.{method_of};

/// A method that S3 has operations for (RFC 9110, section 9.3), or any other.
#[derive(Clone, Copy)]
pub enum Method {
    Get,
    Head,
    Put,
    Post,
    Delete,
    Other,
}

impl Method {
    // The method of that name, whose case counts.
    #[tactic(auto, unfolding(crate::specs::Method::method_of))]
    pub(crate) fn read(name: &[u8]) -> Method
        ensures { result ≡ method_of name.now }
    {
        if name == b"GET".as_slice() {
            Method::Get
        } else if name == b"HEAD".as_slice() {
            Method::Head
        } else if name == b"PUT".as_slice() {
            Method::Put
        } else if name == b"POST".as_slice() {
            Method::Post
        } else if name == b"DELETE".as_slice() {
            Method::Delete
        } else {
            Method::Other
        }
    }
}
