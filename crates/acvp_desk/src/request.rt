//! Requests, as their bytes were read.

use crate::wish::Wish;

/// What a path, its method and its query ask.
#[derive(Clone, Copy, Debug, PartialEq, Eq)]
pub enum Ask {
    /// A token, by what the body says.
    Login,

    /// What is asked by a caller with a token.
    Caller(Wish),
}

/// What the `Authorization` field of a request holds (RFC 6750, section 2.1).
#[derive(Clone, Copy)]
pub enum TokenField<'a> {
    /// There is no field, or it holds no bearer token.
    Missing,

    /// There is more than one field.
    Doubled,

    /// The token, without spaces at its ends.
    Bearer(&'a [u8]),
}

/// A request that a path and a method of the table were found for.
#[derive(Clone, Copy)]
pub struct TypedRequest<'a> {
    pub ask: Ask,
    pub token: TokenField<'a>,
    pub body: &'a [u8],
}
