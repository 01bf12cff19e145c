//! What is told of a request that was answered.
ghost use Rattle.std.specs.Prelude.{◌≡◌, None, Some};

use acvp_desk::Ask;
use acvp_policy::Rule;

/// What a request asked, who asked, and how it was answered: for a log.
#[derive(Clone, Copy)]
pub struct Told {
    /// What it asks of the desk; none if it is refused before it reaches it.
    pub asked: Option<Ask>,

    /// The account that asked, as far as it is known: a login's if it succeeds, and that of a token's claims if these
    /// were verified.
    pub account: Option<u16>,

    /// The rule that refused it; none if it is answered with status 200.
    pub refused: Option<Rule>,
}

impl Told {
    /// A request that is refused by this rule before it reaches the desk.
    pub(crate) fn at_once(rule: Rule) -> Told
        ensures { result ≡ record { asked = None; account = None; refused = Some rule } }
    {
        Told {
            asked: None,
            account: None,
            refused: Some(rule),
        }
    }
}
