/// A status of an answer (RFC 9110, section 15), and what it is answered for.
#[derive(Clone, Copy, Debug, PartialEq, Eq)]
pub enum Status {
    /// 200 OK (section 15.3.1): with the answer, the reply or the record.
    Success,
    /// 304 Not Modified (section 15.4.5): the client has the resource of the page as it is.
    NotModified,
    /// 400 Bad Request (section 15.5.1): the head or the body isn't what it has to be, or ended early.
    BadRequest,
    /// 403 Forbidden (section 15.5.4): the request names a host that isn't served, comes of another site, or brings a command that its sender may not give.
    Forbidden,
    /// 404 Not Found (section 15.5.5): there is no such path, or what is asked for isn't there.
    NotFound,
    /// 405 Method Not Allowed (section 15.5.6): the path has other methods.
    MethodNotAllowed,
    /// 409 Conflict (section 15.5.10): the desk refuses the command or the import.
    Conflict,
    /// 411 Length Required (section 15.5.12): a POST has no Content-Length.
    LengthRequired,
    /// 412 Precondition Failed (section 15.5.13): the desk has accepted another number of commands than Desk-Seq says.
    PreconditionFailed,
    /// 413 (section 15.5.14, there Content Too Large): Content-Length is above 262,144.
    PayloadTooLarge,
    /// 431 Request Header Fields Too Large (RFC 6585, section 5): the head is above 8,192 bytes or 32 lines of fields.
    HeadTooLarge,
    /// 501 Not Implemented (section 15.6.2): there is a Transfer-Encoding.
    NotImplemented,
    /// 503 Service Unavailable (section 15.6.4): the store failed, or memory was refused.
    Unavailable,
}

/// Which methods an answer says that its path allows (field Allow, RFC 9110, section 10.2.1).
#[derive(Clone, Copy, Debug, PartialEq, Eq)]
pub enum Allow {
    /// None are named.
    NoHeader,
    /// GET and HEAD.
    Get,
    /// POST.
    Post,
}
