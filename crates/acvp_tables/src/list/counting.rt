//! How many rows an account has.
ghost use Rattle.std.specs.Prelude.{◌≡◌, length};
ghost use Rattle.acvp_tables.specs.Content.{sessions_of, objects_of, requests_of};
ghost use Rattle.acvp_registry.specs.declared.kind.Kind.TheVariants.{Vendor, Module, Environment};

use crate::list::objects::ObjectsOf;
use crate::list::requests::RequestsOf;
use crate::list::sessions::SessionsOf;
use crate::list::walks::count;
use crate::rows::{ObjectRow, RequestRow, SessionRow};
use acvp_registry::{Counts, Kind};

/// How many rows of each kind an account has.
pub(crate) fn counts_in(
    sessions: &[SessionRow],
    objects: &[ObjectRow],
    requests: &[RequestRow],
    account: u16,
) -> Counts
    ensures { result ≡ record {
      sessions = length (sessions_of account sessions.now);
      vendors = length (objects_of Vendor account objects.now);
      modules = length (objects_of Module account objects.now);
      environments = length (objects_of Environment account objects.now);
      requests = length (requests_of account requests.now);
    } }
{
    Counts {
        sessions: count(sessions, &SessionsOf { account }),
        vendors: count(
            objects,
            &ObjectsOf {
                kind: Kind::Vendor,
                account,
            },
        ),
        modules: count(
            objects,
            &ObjectsOf {
                kind: Kind::Module,
                account,
            },
        ),
        environments: count(
            objects,
            &ObjectsOf {
                kind: Kind::Environment,
                account,
            },
        ),
        requests: count(requests, &RequestsOf { account }),
    }
}
