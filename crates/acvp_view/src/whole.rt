//! Tables that give a request with all that its row has.
use acvp_store::SqlTables;
use acvp_tables::{RequestRow, StoreFault, Tables};
use sqlite::Alter;

/// Tables that give a request with all that its row has.
pub trait WholeRequests: Tables {
    ghost use Rattle.acvp_tables.specs.Calls.{Finds, Reads};
    ghost use Rattle.acvp_tables.specs.Content.{request_at};

    /// The request of a number, with the object that it asks to register.
    fn request_row(&mut self, number: u64) -> Result<Option<RequestRow>, StoreFault>
        ensures found { Finds Self.meaning (λ x. x) result self.old self.new (λ c. request_at number c.requests) }
        ensures reads { Reads Self.faults Self.meaning result self.old self.new };
}

impl<S: Alter> WholeRequests for SqlTables<S> {
    fn request_row(&mut self, number: u64) -> Result<Option<RequestRow>, StoreFault> {
        self.whole_request(number)
    }
}
