//! What a head text says: a request line and header lines.
ghost use Rattle.std.specs.Prelude.{◌≡◌, ◌≤◌, ◌<◌, ◌⊎◌, ◌↔◌, ℕ, List, length, map, All, IfOk, IfErr, MatchResult, Ok, Err, Some, slice_get};
ghost use Rattle.httparse.specs.Grammar.{RequestHead};
ghost use Rattle.httparse.specs.Spans.{IsWithin, IsHeaderWithin, header_bytes, span_bytes};
ghost use Rattle.s3_http_heads.specs.Head.{HeadParts, LinesAreWhole, IsHead, HasNoHead, Says, parts_of, values_of, first_value, is_sent, closes, asks_head_only, expects_continue};
ghost use Rattle.s3_http_heads.specs.Method.{method_of};
ghost use Rattle.s3_http_heads.specs.Target.{path_of, target_of, target_parts};
ghost use Rattle.std.specs.Option.{option_copied};

use crate::text::{has_word, is_named};
use crate::{Method, Target};
use httparse::Status;
use httparse::spans::{EMPTY_HEADER_SPAN, HeaderSpan, RequestSpans, Span, parse_request};
use s3_terms::Code;
use s3_text::{after_first, before_first};
use std::alloc::{AllocError, Global};
use std::marker::Model;

/// The greatest number of header lines.
pub const LINE_LIMIT: usize = 64;

/// The head of a request: its method, target and version, and its header lines, each a name as it was
/// sent and a value without the spaces and tabs around it.
///
/// It owns one copy of the head text, its method, and what the target says if it can be read.
#[derive(Drop)]
pub struct Head {
    text: Vec<u8>,
    // The method, and where its name stands in the text.
    method: Method,
    method_name: Span,
    target: Span,
    minor: u8,
    headers: Vec<HeaderSpan>,
    // What the target says; nothing where it cannot be read.
    said: Option<Target>,
}

impl Model for Head {
    ghost use Rattle.std.specs.Prelude.{◌≡◌, ◌≤◌, length, map, ok_or, All};
    ghost use Rattle.httparse.specs.Spans.{IsWithin, IsHeaderWithin, header_bytes, span_bytes};
    ghost use Rattle.s3_terms.specs.declared.code.Code.TheVariants.{InvalidURI};
    ghost use Rattle.s3_http_heads.specs.Head.{HeadParts};
    ghost use Rattle.s3_http_heads.specs.Method.{method_of};
    ghost use Rattle.s3_http_heads.specs.Target.{target_of};

    ghost Value = { HeadParts };

    ghost view = { λ h. record {
      method = span_bytes h.text.items h.method_name;
      target = span_bytes h.text.items h.target;
      minor = h.minor;
      headers = map (header_bytes h.text.items) h.headers.items;
    } };

    ghost invariant = { λ h. IsWithin (length h.text.items) h.method_name
        × IsWithin (length h.text.items) h.target
        × All (IsHeaderWithin (length h.text.items)) h.headers.items
        × (length h.headers.items ≤ 64)
        × (h.method ≡ method_of (span_bytes h.text.items h.method_name))
        × (ok_or h.said InvalidURI ≡ target_of (span_bytes h.text.items h.target)) };
}

impl Head {
    /// Reads a head text: all of `text` has to be one head (RFC 9112, sections 2 to 5) with at most 64
    /// header lines. The cost is linear in the text, which is copied once, and whose method and target are read once.
    ///
    /// # Errors
    ///
    /// `MalformedHead` where it is not, `InternalError` where there is no memory for the copy.
    pub fn read(alloc: Global, text: &[u8]) -> Result<Head, Code>
        ensures says { IfOk result (λ head. Says text.now head) }
        ensures found { (h : RequestHead) → IsHead text.now h
            → MatchResult result (λ head. head ≡ parts_of h) (λ e. e ≡ Code.InternalError) }
        ensures malformed { (result ≡ Err Code.MalformedHead) ↔ HasNoHead text.now }
        ensures errors { IfErr result (λ e. (e ≡ Code.MalformedHead) ⊎ (e ≡ Code.InternalError)) }
    {
        let mut headers = [EMPTY_HEADER_SPAN; LINE_LIMIT];
        match parse_request(text, &mut headers) {
            Ok(Status::Complete(spans)) if spans.len == text.len() => {
                match Head::copied(alloc, text, spans, &headers[..spans.headers]) {
                    Ok(head) => Ok(head),
                    Err(_) => Err(Code::InternalError),
                }
            }
            _ => Err(Code::MalformedHead),
        }
    }

    fn copied(
        alloc: Global,
        text: &[u8],
        spans: RequestSpans,
        headers: &[HeaderSpan],
    ) -> Result<Head, AllocError>
        requires method_within { IsWithin (length text.now) spans.method }
        requires target_within { IsWithin (length text.now) spans.path }
        requires headers_within { All (IsHeaderWithin (length text.now)) headers.now }
        requires few_headers { length headers.now ≤ 64 }
        ensures method { IfOk result (λ head. head.method ≡ span_bytes text.now spans.method) }
        ensures target { IfOk result (λ head. head.target ≡ span_bytes text.now spans.path) }
        ensures minor { IfOk result (λ head. head.minor ≡ spans.version) }
        ensures headers { IfOk result (λ head. head.headers ≡ map (header_bytes text.now) headers.now) }
    {
        let method = Method::read(spans.method.of(text));
        let said = Target::read(alloc, spans.path.of(text))?;
        let text = Vec::from_slice(alloc, text)?;
        let headers = Vec::from_slice(alloc, headers)?;
        Ok(Head {
            text,
            method,
            method_name: spans.method,
            target: spans.path,
            minor: spans.version,
            headers,
            said,
        })
    }

    /// The method.
    pub fn method(&self) -> Method
        ensures { result ≡ method_of self.now.method }
    {
        self.method
    }

    /// The name of the method, as it was sent.
    pub fn method_name(&self) -> &[u8]
        ensures { result.now ≡ self.now.method }
    {
        self.method_name.of(&self.text)
    }

    /// The target, as it was sent.
    pub fn target(&self) -> &[u8]
        ensures { result.now ≡ self.now.target }
    {
        self.target.of(&self.text)
    }

    /// The minor version: 1 for HTTP/1.1, 0 for HTTP/1.0.
    pub fn minor(&self) -> u8
        ensures { result ≡ self.now.minor }
    {
        self.minor
    }

    /// How many header lines there are.
    pub fn header_count(&self) -> usize
        ensures { result ≡ length self.now.headers }
    {
        self.headers.len()
    }

    /// A law: there are no more than `LINE_LIMIT` header lines.
    pub fn has_few_lines(&self)
        ensures { length self.now.headers ≤ 64 }
    {
        let _count = self.headers.len();
    }

    /// The name, as it was sent, and the value of the header line at `index`, from 0.
    pub fn header(&self, index: usize) -> (&[u8], &[u8])
        requires { index < length self.now.headers }
        ensures { slice_get self.now.headers index ≡ Some (result.0.now, result.1.now) }
    {
        let span = self.headers[index];
        (span.name.of(&self.text), span.value.of(&self.text))
    }

    /// How many header lines have this name, which is given in lower case.
    pub fn count(&self, name: &[u8]) -> usize
        ensures { result ≡ length (values_of name.now self.now) }
    {
        let mut count = 0;
        for index in 0..self.header_count() {
            if is_named(self.header(index).0, name) {
                count += 1;
            }
        }
        count
    }

    /// The value of the first header line of this name, which is given in lower case.
    pub fn first(&self, name: &[u8]) -> Option<&[u8]>
        ensures { option_copied result ≡ first_value name.now self.now }
    {
        for line in 0..self.header_count() {
            let (sent, value) = self.header(line);
            if is_named(sent, name) {
                return Some(value);
            }
        }
        None
    }

    /// Whether a header line of this name was sent; the name is given in lower case.
    pub fn is_sent(&self, name: &[u8]) -> bool
        ensures { result ≡ is_sent name.now self.now }
    {
        self.first(name).is_some()
    }

    // The target up to its first `?`.
    pub(crate) fn path(&self) -> &[u8]
        ensures { result.now ≡ path_of self.now.target }
    {
        before_first(self.target(), b'?')
    }

    /// What the target says, with its escapes read. This takes no memory.
    ///
    /// # Errors
    ///
    /// `InvalidURI` where it doesn't begin with `/`, or has a percent sign that two hexadecimal digits
    /// don't follow.
    #[tactic(auto, unfolding(crate::specs::Target::target_of))]
    pub fn decoded_target(&self) -> Result<&Target, Code>
        ensures ok { IfOk result (λ said. target_of self.now.target ≡ Ok said.now) }
        ensures parts { IfOk result (λ said. said.now ≡ target_parts self.now.target) }
        ensures err { IfErr result (λ code. target_of self.now.target ≡ Err code) }
    {
        self.said.as_ref().ok_or(Code::InvalidURI)
    }

    /// Whether the connection ends with the reply to this head: it is one of HTTP/1.0, or `close` is
    /// among the words of its Connection lines (RFC 9112, section 9.3; a keep-alive of HTTP/1.0 is not
    /// kept).
    pub fn closes(&self) -> bool
        ensures { result ≡ closes self.now }
    {
        if self.minor() == 0 {
            return true;
        }
        for index in 0..self.header_count() {
            let (sent, value) = self.header(index);
            if is_named(sent, b"connection") && has_word(value, b"close") {
                return true;
            }
        }
        false
    }

    /// Whether the client of this head may wait for a reply of status 100 before it sends the body: the head
    /// is one of HTTP/1.1, and the value of its first Expect line is `100-continue` in any case (RFC 9110,
    /// section 10.1.1).
    pub fn expects_continue(&self) -> bool
        ensures { result ≡ expects_continue self.now }
    {
        if self.minor() != 1 {
            return false;
        }
        match self.first(b"expect") {
            Some(value) => is_named(value, b"100-continue"),
            None => false,
        }
    }

    /// Whether the method is `HEAD`, so that the reply has no body.
    pub fn asks_head_only(&self) -> bool
        ensures { result ≡ asks_head_only self.now }
    {
        matches!(self.method(), Method::Head)
    }
}

/// A law: a text says one thing, so that what `Head::read` gives is fixed by the text.
pub fn texts_say_one_thing()
    ensures { (text : List ℕ) (a b : HeadParts) → Says text a → Says text b → a ≡ b }
{}

/// A law: no carriage return is in a header line of a head, so that a reply may tell its value in a line.
pub fn lines_are_whole()
    ensures { LinesAreWhole }
{}
