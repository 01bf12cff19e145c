//! What is given to who reads an algorithm.

ghost use Rattle.std.specs.Prelude.{◌≡◌, ◌&&◌, nat_le, option_map, true, None, IfOk, IfErr};
ghost use Rattle.acvp_json.specs.AlgorithmData.{algorithm_data};
ghost use Rattle.acvp_desk.specs.Answer.{IsReply};
ghost use Rattle.acvp_desk.specs.Replies.{algorithm_at};

use crate::draft::{Draft, told};
use acvp_caps::Algorithm;
use acvp_json::ReplyObject;
use acvp_policy::Rule;
use std::alloc::Global;

/// The algorithm of a number.
#[tactic(auto, unfolding(crate::specs::Replies::algorithm_at))]
fn algorithm_at(number: u64) -> Option<Algorithm>
    ensures { result ≡ algorithm_at number }
{
    Algorithm::all()
        .iter()
        .copied()
        .find(|algorithm| algorithm.number() == number)
}

/// What is given to who reads an algorithm.
#[tactic(auto, unfolding(acvp_json::specs::ReplyData::reply_data))]
pub(crate) fn draft_algorithm(alloc: Global, number: u64) -> Result<Draft, Rule>
    requires { (nat_le 1 number && nat_le number 12) ≡ true }
    ensures reply { IfOk result (λ draft. IsReply draft.reply.items (option_map algorithm_data (algorithm_at number))) }
    ensures change { IfOk result (λ draft. draft.change ≡ None) }
    ensures denied { IfErr result (λ rule. rule ≡ Rule.Unavailable) }
{
    let Some(algorithm) = algorithm_at(number) else {
        return Err(Rule::NoResource);
    };
    told(alloc, &ReplyObject::ReadAlgorithm { algorithm }, None)
}
