//! The operation that a head asks for.

ghost use Rattle.std.specs.Prelude.{◌≡◌, nat_eq, find, option_map, codes, List, ℕ, [], ◌∷◌, true, not, ◌&&◌};
ghost use Rattle.std.specs.List.{list_any, starts_with};
ghost use Rattle.std.specs.Option.{option_copied, option_map_or};
ghost use Rattle.std.specs.Str.{bytes_eq};
ghost use Rattle.s3_text.specs.Characters.{colon, equals_sign, slash, space};
ghost use Rattle.s3_text.specs.Cut.{parts_at};
ghost use Rattle.s3_http_heads.specs.Head as heads;
ghost use Rattle.s3_http_heads.specs.Method as methods;
ghost use Rattle.s3_http_heads.specs.Target.{has_parameter, first_parameter};
ghost use Rattle.s3_terms.specs.declared.dialect.Dialect.TheVariants as dialects;
ghost use Rattle.s3_requests.specs.Addresses as addresses;
ghost use Rattle.s3_requests.specs.Operations as tables;
ghost use Rattle.s3_requests.specs.declared.operations.Operation.TheVariants as operations;
ghost use Rattle.s3_log.specs.Operation as rules;
ghost use Rattle.s3_log.specs.Request as requests;

use crate::cut::{cut_near, cut_once};
use s3_http_heads::{Method, is_named};
use std::marker::Model;

// The sub-resources that aren't there, with a space between each two.
const LACKING: &[u8] =
    b"accelerate acl analytics attributes intelligent-tiering inventory legal-hold logging metrics notification policyStatus requestPayment restore retention select torrent";

// Those that are there where a bucket is read, with a space between each two; and `tagging` where a key is, too.
const ANSWERED: &[u8] =
    b"cors encryption lifecycle location object-lock ownershipControls policy publicAccessBlock replication website";

/// A target as it was sent.
#[derive(Drop)]
pub(crate) struct Target<'a> {
    /// Its path.
    pub(crate) path: &'a [u8],
    /// The bucket that it names, and the key.
    pub(crate) bucket: &'a [u8],
    pub(crate) key: &'a [u8],
    /// Its query.
    pub(crate) query: &'a [u8],
}

impl<'a> Model for Target<'a> {
    ghost use Rattle.s3_http_heads.specs.Target.{TargetParts};
    ghost use Rattle.s3_log.specs.Operation.{parameters_sent};

    ghost Value = { TargetParts };

    ghost view = { λ t. record { path = t.path.now; bucket = t.bucket.now; key = t.key.now; parameters = parameters_sent t.query.now } };
}

impl Target<'_> {
    // Whether a parameter has this name.
    fn has(&self, name: &[u8]) -> bool
        ensures { result ≡ has_parameter name.now self.now }
    {
        is_in(self.query, name)
    }

    // Whether the list is asked for in its second version.
    fn asks_for_second_list(&self) -> bool
        ensures { result ≡ tables.asks_for_second_list self.now }
    {
        match first_in(self.query, b"list-type") {
            Some(value) => value == b"2".as_slice(),
            None => false,
        }
    }

    // Whether something of the query that says what is asked for has an escape.
    fn has_escape(&self) -> bool
        ensures { result ≡ list_any rules.is_escaped self.now.parameters }
    {
        are_escaped(self.query)
    }

    // Whether there is no query.
    fn has_no_query(&self) -> bool
        ensures { result ≡ true → self.now.parameters ≡ rules.parameters_sent [] }
    {
        self.query.is_empty()
    }

    // Whether its path begins with a slash.
    fn begins_with_slash(&self) -> bool
        ensures { result ≡ starts_with nat_eq self.now.path (slash ∷ []) }
    {
        self.path.starts_with(b"/")
    }

    // Whether the service is meant.
    fn is_service(&self) -> bool
        ensures { result ≡ addresses.is_service self.now }
    {
        self.path == b"/".as_slice()
    }

    // Whether a bucket is meant.
    fn is_bucket(&self) -> bool
        ensures { result ≡ addresses.is_bucket self.now }
    {
        !self.is_service() && self.key.is_empty()
    }
}

/// The name of the operation that a head asks for, which has this method and this target; empty where it isn't known, or there is
/// none.
#[tactic(auto, unfolding(crate::specs::Operation::operation_of))]
pub(crate) fn operation_of(head: &[u8], method: &[u8], target: &Target<'_>) -> &'static [u8]
    requires method { method.now ≡ requests.method_of head.now }
    requires target { target.now ≡ rules.target_sent head.now }
    ensures { result.now ≡ rules.operation_of head.now }
{
    asked_by(head, method_named(method), target)
}

// The method of this name.
#[tactic(auto, unfolding(s3_http_heads::specs::Method::method_of))]
fn method_named(name: &[u8]) -> Method
    ensures { result ≡ methods.method_of name.now }
{
    if name == b"GET".as_slice() {
        Method::Get
    } else if name == b"HEAD".as_slice() {
        Method::Head
    } else if name == b"PUT".as_slice() {
        Method::Put
    } else if name == b"POST".as_slice() {
        Method::Post
    } else if name == b"DELETE".as_slice() {
        Method::Delete
    } else {
        Method::Other
    }
}

// The name of what is asked for, where that can be known.
fn asked_by(head: &[u8], method: Method, target: &Target<'_>) -> &'static [u8]
    requires method { method ≡ methods.method_of (requests.method_of head.now) }
    ensures { result.now ≡ rules.asked_by (rules.head_sent head.now) target.now }
{
    if !is_known(head, method, target) {
        return &[];
    }
    operation_asked(head, method, target)
}

// Whether it can be known what is asked for.
#[tactic(auto, using(crate::proofs::OperationLemmas::nothing_named))]
fn is_known(head: &[u8], method: Method, target: &Target<'_>) -> bool
    requires method { method ≡ methods.method_of (requests.method_of head.now) }
    ensures { result ≡ rules.is_known (rules.head_sent head.now) target.now }
{
    if !target.begins_with_slash() {
        return false;
    }
    if target.has_no_query() {
        return true;
    }
    !target.has_escape() && !names_lacking(head, method, target)
}

// Whether the query names a sub-resource that isn't there.
fn names_lacking(head: &[u8], method: Method, target: &Target<'_>) -> bool
    requires method { method ≡ methods.method_of (requests.method_of head.now) }
    ensures { result ≡ addresses.names_lacking dialects.S3 (rules.head_sent head.now) target.now }
{
    let _ = head;
    names_one_of(target, LACKING)
        || (names_one_of(target, ANSWERED) && !(reads_named(method, target) && target.is_bucket()))
        || (target.has(b"tagging") && !reads_named(method, target))
        || (target.has(b"delete") && !(is_post(method) && target.is_bucket()))
}

// Whether a bucket or a key in it is read.
fn reads_named(method: Method, target: &Target<'_>) -> bool
    ensures { result ≡ (addresses.is_get method && not (addresses.is_service target.now)) }
{
    matches!(method, Method::Get) && !target.is_service()
}

fn is_post(method: Method) -> bool
    ensures { result ≡ addresses.is_post method }
{
    matches!(method, Method::Post)
}

// Whether the query names one of these, between which stand spaces.
fn names_one_of(target: &Target<'_>, names: &[u8]) -> bool
    ensures { result ≡ list_any (λ name. has_parameter name target.now) (parts_at space names.now) }
{
    let mut rest = names;
    while let Some((name, behind)) = cut_once(rest, b' ') {
        if target.has(name) {
            return true;
        }
        rest = behind;
    }
    target.has(rest)
}

// The name of what is asked for.
fn operation_asked(head: &[u8], method: Method, target: &Target<'_>) -> &'static [u8]
    requires method { method ≡ methods.method_of (requests.method_of head.now) }
    ensures { result.now ≡ rules.name_told (rules.operation_asked (rules.head_sent head.now) target.now) }
{
    if target.is_service() {
        return service_operation(method);
    }
    if target.is_bucket() {
        return bucket_operation(method, target);
    }
    key_operation(head, method, target)
}

fn service_operation(method: Method) -> &'static [u8]
    ensures { result.now ≡ rules.name_told (tables.service_operation method) }
{
    match method {
        Method::Get => b"ListBuckets",
        Method::Head | Method::Put | Method::Post | Method::Delete | Method::Other => &[],
    }
}

fn bucket_operation(method: Method, target: &Target<'_>) -> &'static [u8]
    ensures { result.now ≡ rules.name_told (tables.bucket_operation method target.now) }
{
    match method {
        Method::Get => bucket_read(target),
        Method::Head => b"HeadBucket",
        Method::Put if target.has(b"versioning") => b"PutBucketVersioning",
        Method::Put => b"CreateBucket",
        Method::Post if target.has(b"delete") => b"DeleteObjects",
        Method::Post => b"PostObject",
        Method::Delete => b"DeleteBucket",
        Method::Other => &[],
    }
}

fn bucket_read(target: &Target<'_>) -> &'static [u8]
    ensures { result.now ≡ rules.operation_name (tables.bucket_read target.now) }
{
    if target.has(b"versioning") {
        b"GetBucketVersioning"
    } else if target.has(b"uploads") {
        b"ListMultipartUploads"
    } else if target.has(b"versions") {
        b"ListObjectVersions"
    } else if target.has(b"location") {
        b"GetBucketLocation"
    } else {
        configuration_read(target)
    }
}

fn configuration_read(target: &Target<'_>) -> &'static [u8]
    ensures { result.now ≡ rules.operation_name (option_map_or operations.GetBucketConfiguration (tables.configuration_named target.now) (tables.objects_read target.now)) }
{
    if target.has(b"cors") {
        b"GetBucketCors"
    } else if target.has(b"encryption") {
        b"GetBucketEncryption"
    } else if target.has(b"lifecycle") {
        b"GetBucketLifecycleConfiguration"
    } else if target.has(b"object-lock") {
        b"GetObjectLockConfiguration"
    } else if target.has(b"ownershipControls") {
        b"GetBucketOwnershipControls"
    } else if target.has(b"policy") {
        b"GetBucketPolicy"
    } else if target.has(b"publicAccessBlock") {
        b"GetPublicAccessBlock"
    } else if target.has(b"replication") {
        b"GetBucketReplication"
    } else if target.has(b"tagging") {
        b"GetBucketTagging"
    } else if target.has(b"website") {
        b"GetBucketWebsite"
    } else {
        objects_read(target)
    }
}

fn objects_read(target: &Target<'_>) -> &'static [u8]
    ensures { result.now ≡ rules.operation_name (tables.objects_read target.now) }
{
    if target.asks_for_second_list() {
        b"ListObjectsV2"
    } else {
        b"ListObjects"
    }
}

#[tactic(auto, using(crate::proofs::OperationLemmas::head_of_a_part))]
fn key_operation(head: &[u8], method: Method, target: &Target<'_>) -> &'static [u8]
    ensures { result.now ≡ rules.name_told (tables.key_operation method (rules.head_sent head.now) target.now) }
{
    match method {
        Method::Get => key_read(target),
        Method::Head => b"HeadObject",
        Method::Put => key_write(head, target),
        Method::Post => key_post(target),
        Method::Delete if target.has(b"uploadId") => b"AbortMultipartUpload",
        Method::Delete => b"DeleteObject",
        Method::Other => &[],
    }
}

#[tactic(auto, using(crate::proofs::OperationLemmas::get_of_a_part))]
fn key_read(target: &Target<'_>) -> &'static [u8]
    ensures { result.now ≡ rules.operation_name (tables.key_read target.now) }
{
    if target.has(b"tagging") {
        b"GetObjectTagging"
    } else if target.has(b"uploadId") {
        b"ListParts"
    } else {
        b"GetObject"
    }
}

fn key_write(head: &[u8], target: &Target<'_>) -> &'static [u8]
    ensures { result.now ≡ rules.operation_name (tables.key_write (rules.head_sent head.now) target.now) }
{
    match (names_part(target), names_source(head)) {
        (true, true) => b"UploadPartCopy",
        (true, false) => b"UploadPart",
        (false, true) => b"CopyObject",
        (false, false) => b"PutObject",
    }
}

fn names_part(target: &Target<'_>) -> bool
    ensures { result ≡ tables.names_part target.now }
{
    target.has(b"partNumber") || target.has(b"uploadId")
}

fn key_post(target: &Target<'_>) -> &'static [u8]
    ensures { result.now ≡ rules.name_told (tables.key_post target.now) }
{
    if target.has(b"uploads") {
        b"CreateMultipartUpload"
    } else if target.has(b"uploadId") {
        b"CompleteMultipartUpload"
    } else {
        &[]
    }
}

// Whether something that is stored is to be copied.
fn names_source(head: &[u8]) -> bool
    ensures { result ≡ tables.names_source (rules.head_sent head.now) }
{
    let mut rest = head;
    while let Some((line, behind)) = cut_once(rest, b'\n') {
        if is_source(line) {
            return true;
        }
        rest = behind;
    }
    is_source(rest)
}

fn is_source(line: &[u8]) -> bool
    ensures { result ≡ heads.is_named (codes "x-amz-copy-source") (rules.cut_at colon line.now) }
{
    is_named(cut_near(line, b':').0, b"x-amz-copy-source")
}

// Whether a parameter of a query has this name.
fn is_in(query: &[u8], name: &[u8]) -> bool
    ensures { result ≡ list_any (λ parameter. bytes_eq parameter.0 name.now) (rules.parameters_sent query.now) }
{
    let mut rest = query;
    while let Some((part, behind)) = cut_once(rest, b'&') {
        if has_name(part, name) {
            return true;
        }
        rest = behind;
    }
    has_name(rest, name)
}

fn has_name(part: &[u8], name: &[u8]) -> bool
    ensures { result ≡ bytes_eq (rules.cut_at equals_sign part.now).0 name.now }
{
    cut_near(part, b'=').0 == name
}

// The value of the first parameter of this name.
fn first_in<'a>(query: &'a [u8], name: &[u8]) -> Option<&'a [u8]>
    ensures { option_copied result ≡ option_map (λ (parameter : List ℕ × List ℕ). parameter.1)
        (find (λ (parameter : List ℕ × List ℕ). bytes_eq parameter.0 name.now) (rules.parameters_sent query.now)) }
{
    let mut rest = query;
    while let Some((part, behind)) = cut_once(rest, b'&') {
        let (sent, value) = cut_near(part, b'=');
        if sent == name {
            return Some(value);
        }
        rest = behind;
    }
    let (sent, value) = cut_near(rest, b'=');
    if sent == name { Some(value) } else { None }
}

// Whether something of a query that says what is asked for has an escape.
fn are_escaped(query: &[u8]) -> bool
    ensures { result ≡ list_any rules.is_escaped (rules.parameters_sent query.now) }
{
    let mut rest = query;
    while let Some((part, behind)) = cut_once(rest, b'&') {
        if is_escaped(part) {
            return true;
        }
        rest = behind;
    }
    is_escaped(rest)
}

fn is_escaped(part: &[u8]) -> bool
    ensures { result ≡ rules.is_escaped (rules.cut_at equals_sign part.now) }
{
    let (name, value) = cut_near(part, b'=');
    has_escape(name) || (name == b"list-type".as_slice() && has_escape(value))
}

fn has_escape(text: &[u8]) -> bool
    ensures { result ≡ rules.has_escape text.now }
{
    text.iter().any(|byte| *byte == b'%')
}
