//! What a database knows of the seeds that it was served with: a row of `meta` for each, under the seed's place in the
//! keys file, with its fingerprint. These rows are no records. Under another laboratory's keys the vector sets would
//! have other tests, and all answers to them would be wrong.
ghost use Rattle.std.specs.Prelude.{◌≡◌};
ghost use Rattle.acvp_server.specs.Fingerprints.{fingerprint_of};

use acvp_causes::Cause;
use acvp_commands::Fault;
use acvp_gen::Seeds;
use acvp_mac::{HashName, hash_pieces};
use acvp_store::{SqlTables, adopt};
use sqlite::{Alter, Connection, Error, ErrorCode, Transaction, params};
use std::alloc::{AllocError, Global};

/// What stands before a seed where its fingerprint is made, so that this is the digest of nothing else.
const WORDS: &[u8] = b"acvp_server seed";

/// The fingerprint of a seed, from which the seed can't be had.
#[tactic(auto, unfolding(crate::specs::Fingerprints::fingerprint_of))]
fn fingerprint_of(seed: &[u8; 32]) -> u32
    ensures { result ≡ fingerprint_of seed.now }
{
    let digest = hash_pieces(HashName::Sha256, &[WORDS, seed]);
    let mut front = [0; 4];
    front.copy_from_slice(&digest.as_slice()[..4]);
    u32::from_be_bytes(front)
}

/// The greatest epoch: a keys file has 16 seeds at most, and the first is of epoch 0.
const MOST_EPOCH: u64 = 15;

/// The place of an epoch's seed in the keys file, from 1 on.
fn place_of(epoch: u64) -> u64 {
    epoch.saturating_add(1)
}

/// The name of the row of an epoch's seed.
fn row_name(alloc: Global, epoch: u64) -> Result<String, AllocError> {
    let place = place_of(epoch);
    format!(in alloc; "seed {place}")
}

/// The fault of a statement that isn't carried out.
fn fault_of_statement(error: Error) -> Fault {
    match error {
        Error::SqliteFailure(ErrorCode::OutOfMemory) => Fault::Memory,
        _ => Fault::Unavailable,
    }
}

/// The fingerprint that a database knows of the seed under a name.
fn known_under<S: Alter + Drop>(
    connection: &mut Connection<S>,
    name: &str,
) -> Result<Option<u32>, Fault> {
    let known = connection.query_all("SELECT value FROM meta WHERE name = ?1", params![name]);
    let rows = known.map_err(fault_of_statement)?;
    match rows.as_slice().first() {
        Some(row) => Ok(Some(row.get(0).map_err(fault_of_statement)?)),
        None => Ok(None),
    }
}

/// Whether an epoch's seed is the one that the database knows, if it knows one.
fn is_same<S: Alter + Drop>(
    alloc: Global,
    connection: &mut Connection<S>,
    epoch: u64,
    seed: &[u8; 32],
) -> Result<bool, Fault> {
    let name = row_name(alloc, epoch)?;
    match known_under(connection, name.as_str())? {
        Some(known) => Ok(known == fingerprint_of(seed)),
        None => Ok(true),
    }
}

/// The epoch of the first seed that is another than the one that the database knows.
fn other_in<S: Alter + Drop>(
    alloc: Global,
    connection: &mut Connection<S>,
    seeds: &Seeds,
) -> Result<Option<u64>, Fault> {
    for epoch in 0..=seeds.newest() {
        if let Some(seed) = seeds.get(epoch)
            && !is_same(alloc, connection, epoch, seed)?
        {
            return Ok(Some(epoch));
        }
    }
    Ok(None)
}

/// The epoch of the first seed behind these that the database knows: new vector sets were made from it, and would be
/// made from an older one.
fn lacked_in<S: Alter + Drop>(
    alloc: Global,
    connection: &mut Connection<S>,
    seeds: &Seeds,
) -> Result<Option<u64>, Fault> {
    for newest in seeds.newest()..MOST_EPOCH {
        let epoch = newest.saturating_add(1);
        let name = row_name(alloc, epoch)?;
        if known_under(connection, name.as_str())?.is_some() {
            return Ok(Some(epoch));
        }
    }
    Ok(None)
}

/// What is wrong with seeds for the database of a connection, by what it knows.
fn cause_in<S: Alter + Drop>(
    alloc: Global,
    connection: &mut Connection<S>,
    seeds: &Seeds,
) -> Result<Option<Cause>, Fault> {
    if let Some(epoch) = other_in(alloc, connection, seeds)? {
        return Ok(Some(Cause::Seed(place_of(epoch) as usize)));
    }
    match lacked_in(alloc, connection, seeds)? {
        Some(epoch) => Ok(Some(Cause::Lacks(place_of(epoch) as usize))),
        None => Ok(None),
    }
}

/// What is wrong with seeds for these tables, by what they know of those that they were served with.
pub(crate) fn cause_of_seeds<S: Alter + Drop>(
    alloc: Global,
    tables: SqlTables<S>,
    seeds: &Seeds,
) -> Result<Option<Cause>, Fault> {
    cause_in(alloc, &mut tables.into_connection(), seeds)
}

/// These tables, if they weren't served with another seed than one of these.
pub(crate) fn tables_under<S: Alter + Drop>(
    alloc: Global,
    tables: SqlTables<S>,
    seeds: &Seeds,
) -> Result<SqlTables<S>, Fault> {
    let mut connection = tables.into_connection();
    if other_in(alloc, &mut connection, seeds)?.is_some() {
        return Err(Fault::Keys);
    }
    match adopt(alloc, connection) {
        Ok(tables) => Ok(tables),
        Err((_, fault)) => Err(Fault::from(fault)),
    }
}

/// A row that a database doesn't have.
#[derive(Drop)]
struct NewRow {
    name: String,
    fingerprint: u32,
}

/// The rows that a start put into a database.
#[derive(Drop)]
pub(crate) struct Added {
    rows: Vec<NewRow>,
}

/// The rows of the seeds that a database doesn't know.
fn unknown_rows<S: Alter + Drop>(
    alloc: Global,
    connection: &mut Connection<S>,
    seeds: &Seeds,
) -> Result<Vec<NewRow>, Fault> {
    let mut rows = Vec::new(alloc);
    for epoch in 0..=seeds.newest() {
        let name = row_name(alloc, epoch)?;
        if let Some(seed) = seeds.get(epoch)
            && known_under(connection, name.as_str())?.is_none()
        {
            let fingerprint = fingerprint_of(seed);
            if rows.push(NewRow { name, fingerprint }).is_err() {
                return Err(Fault::Memory);
            }
        }
    }
    Ok(rows)
}

/// Puts a row into a database.
fn put<S: Alter + Drop>(tx: &mut Transaction<'_, S>, row: &NewRow) -> Result<(), Fault> {
    let values = params![row.name.as_str(), row.fingerprint];
    match tx.execute("INSERT INTO meta (name, value) VALUES (?1, ?2)", values) {
        Ok(_) => Ok(()),
        Err(error) => Err(fault_of_statement(error)),
    }
}

/// Puts rows into a database in one transaction.
fn put_all<S: Alter + Drop>(connection: &mut Connection<S>, rows: &[NewRow]) -> Result<(), Fault> {
    if !connection.is_autocommit() {
        return Err(Fault::Unavailable);
    }
    let mut tx = connection.transaction();
    for row in rows {
        put(&mut tx, row)?;
    }
    tx.commit().map_err(fault_of_statement)
}

/// Has a database know these seeds, and gives the rows that it got. If it knows another one, or one more, nothing is
/// written.
fn keep_seeds<S: Alter + Drop>(
    alloc: Global,
    connection: &mut Connection<S>,
    seeds: &Seeds,
) -> Result<Option<Added>, Fault> {
    if cause_in(alloc, connection, seeds)?.is_some() {
        return Err(Fault::Keys);
    }
    let rows = unknown_rows(alloc, connection, seeds)?;
    if rows.is_empty() {
        return Ok(None);
    }
    put_all(connection, &rows)?;
    Ok(Some(Added { rows }))
}

/// Has a database know the seeds that it is to be served with, and hands it back with those that are new to it. One
/// that can't be taken over, or knows another seed or one more, is handed back as it is.
pub(crate) fn with_seeds<S: Alter + Drop>(
    alloc: Global,
    connection: Connection<S>,
    seeds: &Seeds,
) -> (Connection<S>, Result<Option<Added>, Fault>) {
    match adopt(alloc, connection) {
        Ok(tables) => {
            let mut connection = tables.into_connection();
            let known = keep_seeds(alloc, &mut connection, seeds);
            (connection, known)
        }
        Err((connection, fault)) => (connection, Err(Fault::from(fault))),
    }
}

/// Takes a row out of a database.
fn take_out<S: Alter + Drop>(tx: &mut Transaction<'_, S>, row: &NewRow) -> Result<(), Fault> {
    let name = params![row.name.as_str()];
    match tx.execute("DELETE FROM meta WHERE name = ?1", name) {
        Ok(_) => Ok(()),
        Err(error) => Err(fault_of_statement(error)),
    }
}

/// Takes rows out of a database again, since it wasn't served, in one transaction.
pub(crate) fn forget_seeds<S: Alter + Drop>(
    connection: &mut Connection<S>,
    added: &Added,
) -> Result<(), Fault> {
    if !connection.is_autocommit() {
        return Err(Fault::Unavailable);
    }
    let mut tx = connection.transaction();
    for row in &added.rows {
        take_out(&mut tx, row)?;
    }
    tx.commit().map_err(fault_of_statement)
}
