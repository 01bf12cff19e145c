//! What holds of the records and of their changes, whoever keeps them.
ghost use Rattle.std.specs.Prelude.{◌≡◌, ◌≢◌, ◌⊎◌, ℕ, ◌+◌, ◌/◌, ◌≤◌, List, [], map, length, filter, All, Some, None};
ghost use Rattle.std.specs.Prelude.{IfSome, option_map, true, not, ◌==◌, ◌&&◌, if◌then◌else◌};
ghost use Rattle.acvp_policy.specs.Granted.{Granted};
ghost use Rattle.acvp_registry.specs.declared.kind.Kind.{Kind};
ghost use Rattle.acvp_tables.specs.Content.{Content, no_rows, account_at, session_at, set_at, object_at, request_at};
ghost use Rattle.acvp_tables.specs.Content.{live_sets, is_reviewer, reviewers_of, sessions_of, objects_of, requests_of};
ghost use Rattle.acvp_tables.specs.Content.{page, counts_of, greatest_epoch_of};
ghost use Rattle.acvp_tables.specs.State.{State, SessionRecord, SetRecord, session_record, set_record, state_of, own};
ghost use Rattle.acvp_tables.specs.State.{seen, may_see, owner_of, first_of_account, first_of_session};
ghost use Rattle.acvp_tables.specs.State.{session_record_at, set_record_at, sets_in, live_records, objects_in};
ghost use Rattle.acvp_tables.specs.State.{session_records_of, record_counts, IsNumbered, IsWellNumbered};
ghost use Rattle.acvp_tables.specs.State.{AreWellNumbered};
ghost use Rattle.acvp_tables.specs.Changes.{after, after_order, is_set};
ghost use Rattle.acvp_tables.specs.StateChanges.{after_state, after_order_state};
ghost use Rattle.acvp_tables.specs.Counted.{IsCounted, IsNextCount, AreThere, one_if, answers_passed, is_passed};
ghost use Rattle.acvp_tables.specs.Covers.{Covers};
ghost use Rattle.acvp_tables.specs.Own.{account_of_change, account_of_order, Fits};
ghost use Rattle.acvp_tables.specs.Next.{IsNext, IsNextOrder};
ghost use Rattle.acvp_tables.specs.declared.rows.SessionRow.{SessionRow};
ghost use Rattle.acvp_tables.specs.declared.rows.SetRow.{SetRow};
ghost use Rattle.acvp_tables.specs.declared.rows.ObjectRow.{ObjectRow};
ghost use Rattle.acvp_tables.specs.declared.rows.RequestRow.{RequestRow};
ghost use Rattle.acvp_tables.specs.declared.change.KeptAnswers.{KeptAnswers};
ghost use Rattle.acvp_tables.specs.declared.change.CancelledSet.{CancelledSet};
ghost use Rattle.acvp_tables.specs.declared.change.Change.{Change};
ghost use Rattle.acvp_tables.specs.declared.change.Change.TheVariants as change;
ghost use Rattle.acvp_tables.specs.declared.change.OrderChange.{OrderChange};
ghost use Rattle.acvp_tables.specs.declared.change.OrderChange.TheVariants as order;
ghost use Rattle.acvp_tables.specs.declared.change.Approval.{Approval};

/// A change of what is kept is that change of the records of it.
pub fn state_follows()
    ensures change { (c : Content) (it : Change) → state_of (after it c) ≡ after_state it (state_of c) }
    ensures order { (c : Content) (it : OrderChange) → state_of (after_order it c) ≡ after_order_state it (state_of c) }
{}

/// What is looked up in what is kept is looked up in the records of it.
pub fn selections_follow()
    ensures session { (n : ℕ) (c : Content)
        → session_record_at n (state_of c).sessions ≡ option_map session_record (session_at n c.sessions) }
    ensures set { (n : ℕ) (c : Content) → set_record_at n (state_of c).sets ≡ option_map set_record (set_at n c.sets) }
    ensures live_sets { (s : ℕ) (c : Content) → live_records s (state_of c).sets ≡ map set_record (live_sets s c.sets) }
    ensures sessions { (u : ℕ) (c : Content)
        → session_records_of u (state_of c).sessions ≡ map session_record (sessions_of u c.sessions) }
    ensures page { (offset limit : ℕ) (rows : List SessionRow)
        → page offset limit (map session_record rows) ≡ map session_record (page offset limit rows) }
    ensures counts { (u : ℕ) (c : Content) → record_counts u (state_of c) ≡ counts_of u c }
{}

/// A row that is found by its number is of the account, or of the session, that its number names; and the request for a
/// session's certification is of the session's account.
pub fn numbers_name()
    ensures session { (n : ℕ) (state : State) (row : SessionRecord) → IsWellNumbered state
        → session_record_at n state.sessions ≡ Some row → row.account ≡ owner_of n }
    ensures request { (n : ℕ) (state : State) (row : RequestRow) → IsWellNumbered state
        → request_at n state.requests ≡ Some row → row.account ≡ owner_of n }
    ensures object { (n : ℕ) (kind : Kind) (state : State) (row : ObjectRow) → IsWellNumbered state
        → object_at kind n state.objects ≡ Some row → row.account ≡ owner_of n }
    ensures set { (n : ℕ) (state : State) (row : SetRecord) → IsWellNumbered state
        → set_record_at n state.sets ≡ Some row → row.session ≡ n / 100 }
    ensures certification { (n m : ℕ) (state : State) (row : SessionRecord) → IsWellNumbered state
        → session_record_at n state.sessions ≡ Some row → row.last_request ≡ Some m → owner_of m ≡ owner_of n }
    ensures certifications { (u : ℕ) (state : State) → IsWellNumbered state
        → All (λ row. IfSome row.last_request (λ m. owner_of m ≡ u)) (session_records_of u state.sessions) }
{}

/// The change that a grant is leave for is of the grant's account.
pub fn grants_name_the_account()
    ensures { (g : Granted) (it : Change) → Covers g it → account_of_change it ≡ g.account }
{}

/// In well numbered records a look-up by number tells what is found among the rows that an account owns, and among
/// those that it may see.
pub fn numbers_tell()
    ensures account { (u n : ℕ) (state : State)
        → account_at n (own u state).accounts ≡ (if n == u then account_at n state.accounts else None) }
    ensures session { (u n : ℕ) (state : State) → IsWellNumbered state → session_record_at n (own u state).sessions
        ≡ (if owner_of n == u then session_record_at n state.sessions else None) }
    ensures request { (u n : ℕ) (state : State) → IsWellNumbered state
        → request_at n (own u state).requests ≡ (if owner_of n == u then request_at n state.requests else None) }
    ensures object { (u n : ℕ) (kind : Kind) (state : State) → IsWellNumbered state
        → object_at kind n (own u state).objects ≡ (if owner_of n == u then object_at kind n state.objects else None) }
    ensures set { (u v : ℕ) (state : State) → IsWellNumbered state
        → set_record_at v (own u state).sets ≡ (if owner_of (v / 100) == u then set_record_at v state.sets else None) }
    ensures sets { (u s : ℕ) (state : State)
        → sets_in s (own u state).sets ≡ (if owner_of s == u then sets_in s state.sets else []) }
    ensures live_sets { (u s : ℕ) (state : State)
        → live_records s (own u state).sets ≡ (if owner_of s == u then live_records s state.sets else []) }
    ensures reviewer { (u s a : ℕ) (state : State)
        → is_reviewer s a (own u state).reviewers ≡ ((owner_of s == u) && is_reviewer s a state.reviewers) }
    ensures reviewers { (u s : ℕ) (state : State)
        → reviewers_of s (own u state).reviewers ≡ (if owner_of s == u then reviewers_of s state.reviewers else []) }
    ensures sessions { (u : ℕ) (state : State)
        → session_records_of u (own u state).sessions ≡ session_records_of u state.sessions }
    ensures objects { (u : ℕ) (kind : Kind) (state : State)
        → objects_of kind u (own u state).objects ≡ objects_of kind u state.objects }
    ensures requests { (u : ℕ) (state : State) → requests_of u (own u state).requests ≡ requests_of u state.requests }
    ensures counts { (u : ℕ) (state : State) → record_counts u (own u state) ≡ record_counts u state }
    ensures seen_session { (u n : ℕ) (state : State) → IsWellNumbered state
        → session_record_at n (seen u state).sessions
        ≡ (if may_see u (owner_of n) n state then session_record_at n state.sessions else None) }
    ensures seen_set { (u v : ℕ) (state : State) → IsWellNumbered state → set_record_at v (seen u state).sets
        ≡ (if may_see u (owner_of (v / 100)) (v / 100) state then set_record_at v state.sets else None) }
    ensures seen_sets { (u s : ℕ) (state : State)
        → sets_in s (seen u state).sets ≡ (if may_see u (owner_of s) s state then sets_in s state.sets else []) }
    ensures seen_live_sets { (u s : ℕ) (state : State) → live_records s (seen u state).sets
        ≡ (if may_see u (owner_of s) s state then live_records s state.sets else []) }
    ensures seen_reviewer { (u s : ℕ) (state : State)
        → is_reviewer s u (seen u state).reviewers ≡ is_reviewer s u state.reviewers }
    ensures seen_own { (u : ℕ) (state : State) → own u (seen u state) ≡ own u state }
{}

/// A change is of one account: it makes of that account's rows what it makes of them alone, and leaves the others'.
pub fn changes_are_of_one_account()
    ensures change { (it : Change) (state : State) → Fits it → own (account_of_change it) (after_state it state)
        ≡ after_state it (own (account_of_change it) state) }
    ensures others { (v : ℕ) (it : Change) (state : State) → account_of_change it ≢ v → IsWellNumbered state → Fits it
        → own v (after_state it state) ≡ own v state }
    ensures order { (it : OrderChange) (state : State) → IsWellNumbered state
        → own (account_of_order it) (after_order_state it state)
        ≡ after_order_state it (own (account_of_order it) state) }
    ensures ordered_others { (v : ℕ) (it : OrderChange) (state : State) → account_of_order it ≢ v → IsWellNumbered state
        → own v (after_order_state it state) ≡ own v state }
{}

/// Who reviews a session after a change did so before, or is added by it; an order adds no reviewer, and removes none.
pub fn reviewers_are_added()
    ensures change { (s a : ℕ) (it : Change) (state : State) → is_reviewer s a (after_state it state).reviewers ≡ true
        → (is_reviewer s a state.reviewers ≡ true) ⊎ (it ≡ change.AddReviewer (record { session = s; account = a })) }
    ensures order { (it : OrderChange) (state : State) → (after_order_state it state).reviewers ≡ state.reviewers }
{}

/// A change keeps each session's counters right, where those that come with it are next; an order always does.
pub fn counts_are_kept()
    ensures change { (it : Change) (c : Content) → AreWellNumbered c → IsNext (state_of c) it → IsNextCount c it
        → IsCounted c → IsCounted (after it c) }
    ensures order { (it : OrderChange) (c : Content) → IsCounted c → IsCounted (after_order it c) }
{}

/// The counters after a change of one vector set are those that are kept, less what the set gave them, and with what it
/// gives then.
pub fn counts_differ_by_one()
    ensures kept { (k : KeptAnswers) (c : Content) → AreWellNumbered c → IsCounted c
        → (there : AreThere k.session k.set c) → k.passed + one_if (answers_passed there.set_row.graded)
        ≡ there.row.passed + one_if (is_passed k.graded.disposition)
        → IsNextCount c (change.KeepAnswers k) }
    ensures cancelled { (x : CancelledSet) (c : Content) → AreWellNumbered c → IsCounted c
        → (there : AreThere x.session x.set c)
        → x.live + 1 ≡ there.row.live
        → x.passed + one_if (answers_passed there.set_row.graded) ≡ there.row.passed
        → IsNextCount c (change.CancelSet x) }
{}

/// Without a row the records are well numbered, and all counters are right.
pub fn records_begin_well()
    ensures numbered { AreWellNumbered no_rows }
    ensures counted { IsCounted no_rows }
{}

/// A change keeps the records well numbered, where it is next: its new numbers are its account's next, and what it
/// names is there.
pub fn numbers_are_kept()
    ensures change { (it : Change) (state : State) → IsWellNumbered state → IsNext state it
        → IsWellNumbered (after_state it state) }
    ensures order { (it : OrderChange) (state : State) → IsWellNumbered state → IsNextOrder state it
        → IsWellNumbered (after_order_state it state) }
{}

/// An approval gives a number of its request's account: that of an object, of which there are 999999 of a kind at most,
/// or of the certified session.
pub fn approvals_name_the_account()
    ensures { (a : Approval) (state : State) → IsWellNumbered state → IsNextOrder state (order.Approve a)
        → owner_of a.approved ≡ owner_of a.request }
{}

/// In well numbered records the rows of an account, or of a session, that are listed have rising numbers from its first
/// on, without gaps; the sets that aren't cancelled are among them.
pub fn lists_ascend()
    ensures sessions { (u : ℕ) (state : State) → IsWellNumbered state
        → IsNumbered (λ row. row.number) (first_of_account u) (session_records_of u state.sessions) }
    ensures objects { (u : ℕ) (kind : Kind) (state : State) → IsWellNumbered state
        → IsNumbered (λ row. row.number) (first_of_account u) (objects_of kind u state.objects) }
    ensures requests { (u : ℕ) (state : State) → IsWellNumbered state
        → IsNumbered (λ row. row.number) (first_of_account u) (requests_of u state.requests) }
    ensures sets { (s : ℕ) (state : State) → IsWellNumbered state
        → IsNumbered (λ row. row.number) (first_of_session s) (sets_in s state.sets) }
    ensures live_sets { (s : ℕ) (state : State)
        → live_records s state.sets ≡ filter (λ row. not row.cancelled) (sets_in s state.sets) }
{}

/// What a caller counts is what the next numbers come from: the objects of a kind among an account's rows are those of
/// the kind and the account, and a session's reviewers are as many as its rows of them.
pub fn numbers_count()
    ensures objects { (u : ℕ) (kind : Kind) (state : State)
        → objects_in kind (own u state).objects ≡ objects_of kind u state.objects }
    ensures reviewers { (s : ℕ) (state : State) → IsWellNumbered state
        → length (reviewers_of s state.reviewers) ≡ length (filter (λ row. row.session == s) state.reviewers) }
{}

/// Where all counters are right, and a session and an uncancelled set of it are there, those of the session can be
/// lessened by what the set gives them.
pub fn counters_allow()
    ensures live { (session set : ℕ) (c : Content) → AreWellNumbered c → IsCounted c → (there : AreThere session set c)
        → 1 ≤ there.row.live }
    ensures passed { (session set : ℕ) (c : Content) → AreWellNumbered c → IsCounted c
        → (there : AreThere session set c) → answers_passed there.set_row.graded ≡ true → 1 ≤ there.row.passed }
{}

/// Each set's epoch is at most the greatest, and only where there is no set there is no greatest.
pub fn epochs_are_bounded()
    ensures greatest { (rows : List SetRow)
        → IfSome (greatest_epoch_of rows) (λ greatest. All (λ row. row.epoch ≤ greatest) rows) }
    ensures none { (rows : List SetRow) → greatest_epoch_of rows ≡ None → rows ≡ [] }
{}

/// No two vector sets have the same number.
pub fn sets_are_there_once()
    ensures { (n : ℕ) (c : Content) → AreWellNumbered c → length (filter (is_set n) c.sets) ≤ 1 }
{}
