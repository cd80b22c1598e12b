// What is asked: who asks, for which path, with which header lines (`name`, `:`, `value`, LF).
#[derive(Clone, Copy)]
pub struct Request<'a> {
    // Empty without a client certificate.
    pub identity: &'a [u8],
    pub path: &'a [u8],
    pub headers: &'a [u8],
}
