//! The numbered rules of refusal, with their status and their word.

ghost use Rattle.std.specs.Prelude.{◌≡◌, ◌≤◌, ◌<◌, length};
ghost use Rattle.acvp_policy.specs.Rule.{rule_number, rule_status, rule_word};

/// Why a request is refused. The number is the rule's name for clients and operators.
#[derive(Clone, Copy, Debug, PartialEq, Eq)]
pub enum Rule {
    /// The head of the request isn't one.
    BadHead = 1,

    /// The head has too many bytes or too many fields.
    HeadTooLarge = 2,

    /// The input ended before the request was whole.
    Truncated = 3,

    /// A method with a body came without its length.
    LengthMissing = 4,

    /// A length is no number, or two of them differ.
    BadLength = 5,

    /// The body is longer than may be sent.
    BodyTooLarge = 6,

    /// The body is in a transfer coding.
    TransferCoding = 7,

    /// The request doesn't name one host.
    HostMissing = 8,

    /// There is no such path.
    NoRoute = 9,

    /// The path lacks this method.
    NoMethod = 10,

    /// There is no bearer token.
    TokenMissing = 11,

    /// The token has the shape of none, or there are two.
    TokenMalformed = 12,

    /// The token isn't signed by this server.
    TokenSignature = 13,

    /// The token doesn't say whom it stands for and how long.
    TokenClaims = 14,

    /// The token is past its end.
    TokenExpired = 15,

    /// The token's account isn't there, or it is disabled.
    AccountRefused = 16,

    /// A token that is bound to a session may not change the account's resources.
    AccountTokenNeeded = 17,

    /// A session's resources want a token that is bound to a session.
    SessionTokenNeeded = 18,

    /// The token is bound to another session, or the session is another account's.
    OtherSession = 19,

    /// What the path names isn't there.
    NoResource = 20,

    /// The session is cancelled.
    SessionCancelled = 21,

    /// The session is past its end.
    SessionExpired = 22,

    /// The session's certification is asked for or given.
    SessionFrozen = 23,

    /// The vector set is cancelled.
    SetCancelled = 24,

    /// The vector set is past its end.
    SetExpired = 25,

    /// The vector set has answers.
    AlreadySubmitted = 26,

    /// The vector set has no answers.
    NotSubmitted = 27,

    /// Expected answers are given for sample sessions alone.
    NotSample = 28,

    /// A sample session can't be certified.
    SampleNotCertifiable = 29,

    /// The session has no vector set left, or one that isn't passed.
    NotPassed = 30,

    /// The body isn't JSON, or it has a number with a fraction.
    BodyNotJson = 31,

    /// The body isn't the version and one object.
    BodyEnvelope = 32,

    /// A member is missing or of another form.
    BodyField = 33,

    /// A length isn't one of whole bytes.
    NotByteOriented = 34,

    /// A length is below or above what may be tested.
    LengthOutOfRange = 35,

    /// The algorithm, its revision or an option isn't served.
    Unsupported = 36,

    /// An answer is to no test of its group.
    UnknownTest = 37,

    /// A test is answered twice.
    DuplicateTest = 38,

    /// The answers are to another set.
    SetMismatch = 39,

    /// A URL in the body names nothing of the account.
    NoReference = 40,

    /// The account has as many rows of the kind as it may have.
    AccountFull = 41,

    /// The account or the one-time code of a login is refused.
    LoginRefused = 42,

    /// The token that a login hands in can't be renewed.
    RenewalRefused = 43,

    /// The moment is past the last one that is served.
    ClockOutOfRange = 44,

    /// Memory or the store was refused.
    Unavailable = 45,

    /// The query is no page.
    BadPage = 46,

    /// The session has as many reviewers as it may have, and the account isn't one of them.
    ReviewersFull = 47,
}

impl Rule {
    /// The number of the rule, from 1 to 47.
    pub fn number(self) -> u8
        ensures value { result ≡ rule_number self }
        ensures range { (1 ≤ result) × (result ≤ 47) }
    {
        self as u8
    }

    /// The status code of the refusal (RFC 9110, section 15).
    pub fn status(self) -> u16
        ensures value { result ≡ rule_status self }
        ensures range { (100 ≤ result) × (result < 1000) }
    {
        match self {
            Rule::BadHead
            | Rule::Truncated
            | Rule::BadLength
            | Rule::HostMissing
            | Rule::BodyNotJson
            | Rule::BodyEnvelope
            | Rule::BodyField
            | Rule::NotByteOriented
            | Rule::LengthOutOfRange
            | Rule::Unsupported
            | Rule::UnknownTest
            | Rule::DuplicateTest
            | Rule::SetMismatch
            | Rule::NoReference
            | Rule::BadPage => 400,
            Rule::TokenMissing
            | Rule::TokenMalformed
            | Rule::TokenSignature
            | Rule::TokenClaims
            | Rule::TokenExpired => 401,
            Rule::AccountRefused
            | Rule::AccountTokenNeeded
            | Rule::SessionTokenNeeded
            | Rule::OtherSession
            | Rule::NotSample
            | Rule::SampleNotCertifiable
            | Rule::AccountFull
            | Rule::LoginRefused
            | Rule::RenewalRefused
            | Rule::ReviewersFull => 403,
            Rule::NoRoute | Rule::NoResource => 404,
            Rule::NoMethod => 405,
            Rule::SessionCancelled
            | Rule::SessionExpired
            | Rule::SessionFrozen
            | Rule::SetCancelled
            | Rule::SetExpired
            | Rule::AlreadySubmitted
            | Rule::NotSubmitted
            | Rule::NotPassed => 409,
            Rule::LengthMissing => 411,
            Rule::BodyTooLarge => 413,
            Rule::HeadTooLarge => 431,
            Rule::TransferCoding => 501,
            Rule::ClockOutOfRange | Rule::Unavailable => 503,
        }
    }

    /// The word that stands in the reply's `error`.
    pub fn word(self) -> &'static str
        ensures value { result.now ≡ rule_word self }
        ensures short { length result.now ≤ 20 }
    {
        match self {
            Rule::BadHead => "badHead",
            Rule::HeadTooLarge => "headTooLarge",
            Rule::Truncated => "truncated",
            Rule::LengthMissing => "lengthMissing",
            Rule::BadLength => "badLength",
            Rule::BodyTooLarge => "bodyTooLarge",
            Rule::TransferCoding => "transferCoding",
            Rule::HostMissing => "hostMissing",
            Rule::NoRoute => "noRoute",
            Rule::NoMethod => "noMethod",
            Rule::TokenMissing => "tokenMissing",
            Rule::TokenMalformed => "tokenMalformed",
            Rule::TokenSignature => "tokenSignature",
            Rule::TokenClaims => "tokenClaims",
            Rule::TokenExpired => "tokenExpired",
            Rule::AccountRefused => "accountRefused",
            Rule::AccountTokenNeeded => "accountTokenNeeded",
            Rule::SessionTokenNeeded => "sessionTokenNeeded",
            Rule::OtherSession => "otherSession",
            Rule::NoResource => "noResource",
            Rule::SessionCancelled => "sessionCancelled",
            Rule::SessionExpired => "sessionExpired",
            Rule::SessionFrozen => "sessionFrozen",
            Rule::SetCancelled => "setCancelled",
            Rule::SetExpired => "setExpired",
            Rule::AlreadySubmitted => "alreadySubmitted",
            Rule::NotSubmitted => "notSubmitted",
            Rule::NotSample => "notSample",
            Rule::SampleNotCertifiable => "sampleNotCertifiable",
            Rule::NotPassed => "notPassed",
            Rule::BodyNotJson => "bodyNotJson",
            Rule::BodyEnvelope => "bodyEnvelope",
            Rule::BodyField => "bodyField",
            Rule::NotByteOriented => "notByteOriented",
            Rule::LengthOutOfRange => "lengthOutOfRange",
            Rule::Unsupported => "unsupported",
            Rule::UnknownTest => "unknownTest",
            Rule::DuplicateTest => "duplicateTest",
            Rule::SetMismatch => "setMismatch",
            Rule::NoReference => "noReference",
            Rule::AccountFull => "accountFull",
            Rule::LoginRefused => "loginRefused",
            Rule::RenewalRefused => "renewalRefused",
            Rule::ClockOutOfRange => "clockOutOfRange",
            Rule::Unavailable => "unavailable",
            Rule::BadPage => "badPage",
            Rule::ReviewersFull => "reviewersFull",
        }
    }
}
