//! The promise of the server in one statement, over records that nobody has to believe anything of.
ghost use Rattle.std.specs.Prelude.{◌≡◌, IfOk, false};
ghost use Rattle.acvp_http.specs.Run.{RunsFromNothing, is_read_answer, is_write_answer};

use crate::routes::Routes;
use crate::running::run;
use crate::script::ScriptFault;
use crate::source::{Sink, Source};
use acvp_desk::{Desk, Keys, NewFault, records_are_kept};
use acvp_tables::ListTables;
use std::alloc::Global;

/// Runs a script over lists without a row. The input is the script of some turns, the output their answers, and of
/// these turns, answers and what they leave all is promised: what `headline` and `isolation` say. Without a desk,
/// nothing is read or written.
pub fn run_from_nothing<S: Source, K: Sink>(
    alloc: Global,
    routes: &Routes,
    keys: Keys,
    reader: &mut S,
    writer: &mut K,
) -> Result<Result<u64, ScriptFault>, NewFault>
    requires reader_clear { (S.stream reader.old).failed ≡ false }
    requires writer_clear { (K.stream writer.old).failed ≡ false }
    ensures promised { IfOk result (RunsFromNothing keys (S.stream reader.old) (S.stream reader.new)
        (K.stream writer.old) (K.stream writer.new)) }
    ensures read_fault { IfOk result (λ ran. (S.stream reader.new).failed ≡ is_read_answer ran) }
    ensures write_fault { IfOk result (λ ran. (K.stream writer.new).failed ≡ is_write_answer ran) }
{
    records_are_kept();
    match Desk::new(alloc, keys, ListTables::new(alloc)) {
        Ok(mut desk) => Ok(run(alloc, routes, &mut desk, reader, writer)),
        Err((_, fault)) => Err(fault),
    }
}
