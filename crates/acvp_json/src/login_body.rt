//! The body of a login.
ghost use Rattle.std.specs.Prelude.{◌≡◌, Some, None, option_map, IfOk};
ghost use Rattle.serde_json.specs.View.{view};
ghost use Rattle.acvp_json.specs.Private.Borrowed.{texts};
ghost use Rattle.acvp_json.specs.LoginBody.{login_body_of, login_body_conditions};
ghost use Rattle.acvp_json.specs.Private.Said.{login_said};
ghost use Rattle.acvp_caps.specs.Conditions.{IsJudged, judged};

use crate::fault::BodyFault;
use crate::members::optional_text;
use crate::text::{Text, copied};
use acvp_caps::json::text_at;
use serde_json::Value;
use std::alloc::{AllocError, Global};

/// What a login says: the account's number as text, the one-time code, and the token that it renews, if any.
#[derive(Drop)]
pub struct LoginBody {
    pub user: Text,
    pub password: Text,
    pub access_token: Option<Text>,
}

/// A text of its own, where there is one.
fn copied_if_any(alloc: Global, text: Option<&str>) -> Result<Option<Text>, AllocError>
    ensures { IfOk result (λ copy. copy ≡ texts text.entry) }
{
    match text {
        Some(text) => Ok(Some(copied(alloc, text)?)),
        None => Ok(None),
    }
}

/// The members of a login, still in the object.
#[derive(Clone, Copy)]
struct Said<'a> {
    user: &'a str,
    password: &'a str,
    access_token: Option<&'a str>,
}

fn said_in(object: &Value) -> Option<Said<'_>>
    ensures { option_map login_said result ≡ login_body_of (view object.now) }
{
    let user = text_at(object, "user")?;
    let password = text_at(object, "password")?;
    let access_token = optional_text(object.get("accessToken"))?;
    Some(Said {
        user,
        password,
        access_token,
    })
}

/// Reads the object of a login. The faults are BodyField and Memory.
pub fn read_login(alloc: Global, object: &Value) -> Result<LoginBody, BodyFault>
    ensures { IsJudged BodyFault.Memory (λ body. Some body)
        (judged (login_body_conditions (view object.now)) (login_body_of (view object.now))) result }
{
    let Some(said) = said_in(object) else {
        return Err(BodyFault::BodyField);
    };
    Ok(LoginBody {
        user: copied(alloc, said.user)?,
        password: copied(alloc, said.password)?,
        access_token: copied_if_any(alloc, said.access_token)?,
    })
}
