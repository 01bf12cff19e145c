//! One account's rows, whole and with one thing wrong. What is found is reckoned by hand.

use acvp_answers::{Answers, Verdict, grade, standard};
use acvp_check::{Finding, RowKey, Rows, Wrong, judge_account, owners_wrong};
use acvp_gen::{CapFault, Capability, Seeds, prompts};
use acvp_tables::{AccountRow, Graded, SessionRow, SetRow};
use std::alloc::{AllocError, Global};
use std::test::Fail;

const SEED: [u8; 32] = [7; 32];

const SET: u64 = 700000101;

const HASH: &str =
    r#"{"algorithm":"SHA2-256","revision":"1.0","messageLength":[{"min":0,"max":64,"increment":8}]}"#;

// The only account.
fn account() -> AccountRow {
    AccountRow {
        number: 7,
        secret: [1; 32],
        enabled: true,
        last_step: None,
    }
}

// A session of it with one vector set.
fn session() -> SessionRow {
    SessionRow {
        number: 7000001,
        account: 7,
        sample: false,
        created: 0,
        cancelled: false,
        last_request: None,
        live: 1,
        passed: 0,
    }
}

// The verdicts on no answers: each test is missing.
fn no_answers(alloc: Global, capability: &Capability) -> Result<Vec<Verdict>, AllocError> {
    let prompts = prompts(alloc, &SEED, SET, capability)?;
    let standard = standard(alloc, &prompts)?;
    grade(alloc, &standard, &Answers::new(alloc))
}

// Its vector set without an answer, as it was graded, or with a verdict more.
fn set(alloc: Global, more: bool) -> Result<SetRow, CapFault> {
    let capability = Capability::from_text(alloc, HASH)?;
    let mut verdicts = no_answers(alloc, &capability).map_err(|_| CapFault::Memory)?;
    if more {
        verdicts
            .push(Verdict::Missing)
            .map_err(|_| CapFault::Memory)?;
    }
    Ok(SetRow {
        number: SET,
        session: 7000001,
        capability,
        epoch: 0,
        cancelled: false,
        graded: Some(Graded::new(Answers::new(alloc), verdicts)),
    })
}

// The account's rows.
fn rows(alloc: Global, session: SessionRow, more: bool) -> Result<Rows, Fail> {
    let mut rows = Rows {
        accounts: Vec::new(alloc),
        sessions: Vec::new(alloc),
        sets: Vec::new(alloc),
        objects: Vec::new(alloc),
        requests: Vec::new(alloc),
        reviewers: Vec::new(alloc),
    };
    rows.accounts.push(account()).map_err(|_| "memory")?;
    rows.sessions.push(session).map_err(|_| "memory")?;
    let set = set(alloc, more).map_err(|_| "capability")?;
    rows.sets.push(set).map_err(|_| "memory")?;
    Ok(rows)
}

// What is found, with the verdicts or without.
fn found(
    alloc: Global,
    session: SessionRow,
    more: bool,
    grades: bool,
) -> Result<Option<Finding>, Fail> {
    let rows = rows(alloc, session, more)?;
    let seeds = Seeds::of(&[SEED]).ok_or("seeds")?;
    let found = judge_account(alloc, 7, &rows, &seeds, grades).map_err(|_| "memory")?;
    Ok(found)
}

#[test]
fn whole_rows_have_no_finding(rt: HostRuntime) -> Result<(), Fail> {
    let alloc = rt.alloc();
    assert!(rt; found(alloc, session(), false, true)? == None);
    assert!(rt; found(alloc, session(), false, false)? == None);
    assert!(rt; owners_wrong(&rows(alloc, session(), false)?).is_ok());
    Ok(())
}

#[test]
fn the_first_broken_condition_is_found(rt: HostRuntime) -> Result<(), Fail> {
    let alloc = rt.alloc();
    let mut counted = session();
    counted.live = 2;
    let counter = Finding {
        row: RowKey::Session(7000001),
        wrong: Wrong::Counter,
    };
    assert!(rt; found(alloc, counted, false, true)? == Some(counter));
    let mut moved = counted;
    moved.number = 7000002;
    let number = Finding {
        row: RowKey::Session(7000002),
        wrong: Wrong::Number,
    };
    assert!(rt; found(alloc, moved, false, true)? == Some(number));
    Ok(())
}

#[test]
fn verdicts_are_worked_out_anew(rt: HostRuntime) -> Result<(), Fail> {
    let alloc = rt.alloc();
    let verdicts = Finding {
        row: RowKey::Set(SET),
        wrong: Wrong::Verdicts,
    };
    assert!(rt; found(alloc, session(), true, true)? == Some(verdicts));
    assert!(rt; found(alloc, session(), true, false)? == None);
    Ok(())
}

#[test]
fn a_row_is_of_the_account_of_its_number(rt: HostRuntime) -> Result<(), Fail> {
    let alloc = rt.alloc();
    let mut moved = session();
    moved.number = 8000001;
    let owner = Finding {
        row: RowKey::Session(8000001),
        wrong: Wrong::Owner,
    };
    assert!(rt; owners_wrong(&rows(alloc, moved, false)?) == Err(owner));
    Ok(())
}
