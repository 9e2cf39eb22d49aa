//! The guarantees for an updater: laws on runs of applications that perform the operations of `step`. A run
//! may fail or be cut off anywhere, including by a crash of the machine.

ghost use Rattle.std.specs.Prelude.{◌≡◌, ◌≤◌, ◌+◌, ◌*◌, ℕ, List, Some, Ok, Err, true, false, is_some};
ghost use Rattle.std.specs.Prelude.{◌<◌, ◌||◌, ◌⊎◌, Bool, None, Option, length};
ghost use Rattle.minisign_external.specs.declared.state.Refusal.TheVariants.{Refused};
ghost use Rattle.minisign_install.specs.Applications.{Applies, Call, LeavesAll, Snapshot, Others};
ghost use Rattle.minisign_install.specs.Applications.{IsBeforeRun, Performs};
ghost use Rattle.minisign_install.specs.Comments.{Numbering};
ghost use Rattle.minisign_install.specs.Decisions.{Options, Recorded, judge_record, names_other_key};
ghost use Rattle.minisign_install.specs.Decisions.{nothing_recorded, record_fault, recorded_version};
ghost use Rattle.minisign.specs.SignatureText.{SignatureTextRecord};
ghost use Rattle.minisign_install.specs.Decisions.{comment_fault};
ghost use Rattle.minisign_install.specs.Histories.{IsAtTime, is_for_list, is_past_comment, list_calls};
ghost use Rattle.minisign_install.specs.Histories.{AcceptsWholeKeys, AllCalls, AllEvents, HistoryEvent};
ghost use Rattle.minisign_install.specs.Histories.{IsHistory, IsAcceptableFor, IsOldUpdate, IsSafeCall};
ghost use Rattle.minisign_install.specs.Histories.{IsInstalled};
ghost use Rattle.minisign_install.specs.Histories.{HasNoFiles, LeavesContent};
ghost use Rattle.minisign_install.specs.Histories.{AppliesAs, EndIsDurable, IsAcceptableAt, IsLaterRun};
ghost use Rattle.minisign_install.specs.Histories.{IsOtherUpdate};
ghost use Rattle.minisign_install.specs.Histories.{KeepsVersion, leads_to_install};
ghost use Rattle.minisign_install.specs.Histories.{OthersLeaveTarget, used_record_for};
ghost use Rattle.minisign_install.specs.RecordTexts.{record_key};
ghost use Rattle.minisign_install.specs.Step.{CheckComment, Installed, State, after, begin, has_ended};
ghost use Rattle.minisign_install.specs.Step.{AlreadyInstalled, Answered, CheckList, Event, Rejected};
ghost use Rattle.minisign_install.specs.Step.{key_of, line_at_fault};
ghost use Rattle.minisign_install.specs.Step.{new_record};
ghost use Rattle.minisign_install.specs.Step.{new_key, new_version, signed_digest, step};
ghost use Rattle.minisign_install.specs.Faults.{InstallFault, NoRecord, SameNumber};
ghost use Rattle.minisign_install.specs.Installations.{numbered};
ghost use Rattle.minisign_install.specs.StepRuns.{IsAtTimeIn, IsEnd, IsAcceptable, IsGoodUpdate, IsReason};
ghost use Rattle.minisign_install.specs.StepRuns.{IsUpdate, Succeeds};
ghost use Rattle.minisign_install.specs.StepRuns.{IsListAccepted, IsSigned, World};
ghost use Rattle.minisign_hash.specs.Blake2b.{blake2b_digest};
ghost use Rattle.minisign_lists.specs.Digests.{has_digest};
ghost use Rattle.minisign_lists.specs.Lines.{Entry};
ghost use Rattle.minisign_lists.specs.declared.lines.LongDigest.{LongDigest};
ghost use Rattle.minisign_lists.specs.Lists.{listed_entry};

/// States properties of every run of a lawful application, complete or cut off anywhere. This function is a
/// law: it does nothing, and exists only for its contract.
pub fn any_application_is_safe()
    // After each operation, a process finds at the target, at once or after a crash, only what it could have
    // found there before, or an update that a given key has signed, by itself or in a list; if it finds such
    // a new update, the only record that it can find is that of this update. At the record, it finds only
    // what it could have found there before, or the record of such an update. An update is signed in a list
    // if the key has signed the list, and the list has the digest of the update for the name.
    ensures safe { (w : World) (o : Options) (m : Snapshot) (calls : List Call) (t : State) (end : Snapshot)
        → Applies w (begin o) m calls t end → AllCalls (IsSafeCall w o) calls }

    // The trusted comment is checked against the time that the application passes in with the signature
    // file. An update is installed, or reported as installed, only if its comment is not rejected at this
    // time.
    ensures judged { (w : World) (o : Options) (m : Snapshot) (calls : List Call) (t : State) (end : Snapshot)
        (time : Option ℕ) → Applies w (begin o) m calls t end → AllEvents (IsAtTime time) calls
        → t.due ≡ CheckComment → (text : SignatureTextRecord) → w.text ≡ Ok text
        → t.fault ≡ comment_fault o t.recorded.version time text.comments.trusted }
    ensures timely { (w : World) (o : Options) (m : Snapshot) (calls : List Call) (t : State) (end : Snapshot)
        (time : Option ℕ) → Applies w (begin o) m calls t end → AllEvents (IsAtTime time) calls
        → is_past_comment t.due ≡ true → (text : SignatureTextRecord) → w.text ≡ Ok text
        → comment_fault o t.recorded.version time text.comments.trusted ≡ None }

    // A check changes nothing, and takes no lock.
    ensures check { (w : World) (o : Options) (m : Snapshot) (calls : List Call) (t : State) (end : Snapshot)
        → o.check ≡ true → Applies w (begin o) m calls t end → AllCalls LeavesAll calls }

    // If no operation fails and the lock is free, a run that has ended leaves no temporary files.
    ensures files { (w : World) (o : Options) (m : Snapshot) (calls : List Call) (t : State) (end : Snapshot)
        → IsBeforeRun m → Applies w (begin o) m calls t end → AllEvents Succeeds calls
        → has_ended t.due ≡ true → HasNoFiles end }

    // If no operation fails and the lock is free, a run that is rejected does not change the content of the
    // target or of the record.
    ensures rejected { (w : World) (o : Options) (m : Snapshot) (calls : List Call) (t : State)
        (end : Snapshot)
        → Applies w (begin o) m calls t end → AllEvents Succeeds calls → t.due ≡ Rejected
        → AllCalls LeavesContent calls }

    // If a call returns an error, then an operation has failed, the lock is in use, or the run has found the
    // cause of this error at a time that the application passed in. `IsInputFault` lists these causes, and
    // `times` is any set that contains the times that were passed in.
    ensures errors { (w : World) (o : Options) (times : Option ℕ → Bool) (m : Snapshot) (calls : List Call)
        (s : State) (end : Snapshot) (c : Call) (fault : InstallFault) → Applies w (begin o) m calls s end
        → AllEvents (IsAtTimeIn times) calls → IsAtTimeIn times c.event → Others end c.before
        → is_some (after s.due c.event s) ≡ true → Performs w s s.due c.event c.before c.after
        → (step s c.event).0 ≡ Err (Refused fault) → IsReason w o times s c.event fault }

    // A run ends as installed or already installed, and a check says that it would install, only if a given
    // key has signed the trusted comment, and the comment is not rejected at a time that the application
    // passed in. If the update is installed, this key has also signed the data. If it was already installed,
    // this key has signed the digest of some data. If the signature is that of a list, the key has signed the
    // list instead, and the list has the digest of the data for the name.
    ensures ends { (w : World) (o : Options) (times : Option ℕ → Bool) (m : Snapshot) (calls : List Call)
        (t : State) (end : Snapshot) → Applies w (begin o) m calls t end → AllEvents (IsAtTimeIn times) calls
        → IsEnd w o times t.due }

    // Suppose that other processes leave the target alone. If a run ends as installed, the update is at the
    // target and its record beside it, and no crash can undo this; the permissions of the new file were set,
    // and no temporary files of killed runs are left. If a run ends as already installed, the
    // signature is valid for the bytes that were read from the target; with a list, it is valid for the list
    // instead, and the list has the digest of these bytes for the name. Unless the run is a check, the target
    // has these bytes, and no crash can undo this.
    ensures durable { (w : World) (o : Options) (m : Snapshot) (calls : List Call) (t : State)
        (end : Snapshot)
        → Applies w (begin o) m calls t end → OthersLeaveTarget m calls → EndIsDurable w o t.due t end }

    // The length of a run is bounded: it has at most 23 calls, two more if the signature is that of a list,
    // one more for each key, one more for each byte that the installed file can have, and two more for each
    // byte of the data.
    ensures bounded { (w : World) (o : Options) (m : Snapshot) (calls : List Call) (t : State)
        (end : Snapshot)
        → Applies w (begin o) m calls t end
        → length calls ≤ 23 + list_calls o + length o.keys + w.max_size + 2 * length w.update }
{}

/// States that a good update is installed if nothing fails. This function is a law: it does nothing, and
/// exists only for its contract.
pub fn any_good_update_arrives()
    // Suppose that an update is good, as `IsGoodUpdate` defines it: the record is valid or not needed, the
    // signature file passes the checks that need no Ed25519, a given key has signed the comment and the
    // data, the version number is greater than the recorded one, and the data has the signed size. With a
    // list, the key has signed the list instead of the data, and the list has the digest of the data for the
    // name. If the comment is not rejected at the time that is passed in, no
    // operation fails and the lock is free, then a run that has ended has installed the update.
    ensures installed { (w : World) (o : Options) (g : IsGoodUpdate w o) (m : Snapshot) (calls : List Call)
        (t : State) (end : Snapshot) → Applies w (begin o) m calls t end → AllEvents (IsAcceptable g) calls
        → has_ended t.due ≡ true → t.due ≡ Installed }

    // Suppose that the version number is not greater than the recorded one, but the record was already
    // written for this update, for example by an interrupted run, or the number is smaller. Under the other
    // conditions of the clause `installed`, a run that has ended has installed the update or found it
    // installed. If the number is smaller, the comment is rejected unless --roll-back is given.
    ensures finished { (w : World) (o : Options) (g : IsOldUpdate w o) (m : Snapshot) (calls : List Call)
        (t : State) (end : Snapshot) → Applies w (begin o) m calls t end → AllEvents (IsAcceptableFor g) calls
        → has_ended t.due ≡ true → IsInstalled t.due }

    // A later run with the same options reads from the new record the version number and the key that this
    // run recorded, and the digest of the data that it installed or, with a list, of the list. The options
    // must not include --first or --new-key.
    ensures record_of_update { (w : World) (o : Options) → AcceptsWholeKeys w.accepts → (s : State)
        → IsUpdate w o s
        → o.first ≡ false → o.new_key ≡ false
        → judge_record o (Some (new_record s)) ≡ Ok (record {
          version = Some (new_version s);
          key = record_key (new_record s);
          digest = Some (signed_digest s);
        }) }
{}

/// States that installed data is listed if the signature is that of a list. This function is a law: it does
/// nothing, and exists only for its contract.
pub fn any_listed_update_is_listed()
    // The data that a run installs has the digest that the list has for the name, in the only entry of the
    // name, and a given key has signed the list.
    ensures listed { (w : World) (o : Options) (s : State) → IsUpdate w o s → (long : LongDigest)
        → o.list ≡ Some long → (entry : Entry) × (listed_entry long w.list w.name ≡ Ok entry)
        × (has_digest entry.digest s.read ≡ true)
        × (w.accepts (blake2b_digest 64 w.list) (key_of s.signers) s.signature ≡ true) }

    // No line of an unsigned list is reported as at fault: the line at fault is 0 until the list is found to
    // be signed, and this happens only when Ed25519 accepts the signature of its digest.
    ensures signed { (s : State) (e : Event) → s.is_list_signed ≡ false
        → (step s e).1.is_list_signed ≡ true → (s.due ≡ CheckList) × (e ≡ Answered true) }
    ensures unsigned { (s : State) → s.is_list_signed ≡ false → line_at_fault s ≡ 0 }

    // If the signature is that of the data, no list is read.
    ensures none { (w : World) (o : Options) (m : Snapshot) (calls : List Call) (t : State) (end : Snapshot)
        → o.list ≡ None → Applies w (begin o) m calls t end → is_for_list t.due ≡ false }
{}

/// States that versions do not decrease over time. This function is a law: it does nothing, and exists only
/// for its contract.
pub fn any_history_keeps_the_version()
    // The recorded version does not decrease over any sequence of runs, crashes and changes by other
    // processes, if these processes do not decrease it. A run may be complete, failed or interrupted. If
    // --first or --new-key is given, the record must not name a key that was not given.
    ensures versions { (field : Numbering) (old new : Snapshot) (events : List (HistoryEvent field))
        → IsHistory field old events new → KeepsVersion field old new }

    // Records of version 0.2 still work: if version 0.2 used the version number of a record, with or without
    // the name of the field, so does this version; and if it ignored a record with --first, so does this
    // version.
    ensures old_records { (o : Options) (found : Option (List ℕ)) (applicable : Option ℕ) → o.new_key ≡ false
        → AppliesAs o.numbering o.first (used_record_for o found) applicable
        → (r : Recorded) × (judge_record o found ≡ Ok r) × (r.version ≡ applicable) }
{}

/// States the effects of `--new-key` and `--roll-back` on the record. This function is a law: it does
/// nothing, and exists only for its contract.
pub fn any_record_is_judged()
    // With --new-key or --first, a record with a version number for the field is ignored if it names a key
    // that was not given.
    ensures ignored { (o : Options) (bytes : List ℕ) (n : ℕ) → (o.first || o.new_key) ≡ true
        → names_other_key o bytes ≡ true → recorded_version o.numbering bytes ≡ Some n
        → judge_record o (Some bytes) ≡ Ok nothing_recorded }

    // Without --first and --new-key, a record with a version number for the field is used, whichever key it
    // names.
    ensures record_applies { (o : Options) (bytes : List ℕ) (n : ℕ) → (o.first || o.new_key) ≡ false
        → recorded_version o.numbering bytes ≡ Some n
        → judge_record o (Some bytes) ≡ Ok (numbered n bytes) }

    // A missing record, or one without a version number for the field, is an error unless --first is given,
    // even with --new-key.
    ensures missing { (o : Options) → o.first ≡ false → judge_record o None ≡ Err NoRecord }
    ensures damaged { (o : Options) (bytes : List ℕ) → o.first ≡ false
        → recorded_version o.numbering bytes ≡ None
        → judge_record o (Some bytes) ≡ Err (record_fault o.numbering bytes) }

    // A run that rolls back to an older update writes the recorded version number into the new record again,
    // and the key of the old record if it names one. `Installation::record_text` writes both, with the
    // digest of the data that is installed or, with a list, of the list.
    ensures version { (s : State) (k : ℕ) → s.recorded.version ≡ Some k → s.version < k
        → new_version s ≡ k }
    ensures key { (s : State) (k : ℕ) (key : List ℕ) → s.recorded.version ≡ Some k → s.version < k
        → s.recorded.key ≡ Some key → new_key s ≡ key }

    // **No later run undoes a roll-back.** Suppose that a run has installed an update that is older than the
    // recorded version k, and that a later run without --first, --new-key and --again reads the record that
    // the first run has written. Then the later run does not install an update of version k with other data
    // (with a list: an update of another list), and a check does not say that it would, if there is a file at
    // the target and other processes leave it alone. If there is no file at the target, nothing is promised,
    // because version k can then be installed again.
    ensures not_undone { (w : World) (o : Options) → AcceptsWholeKeys w.accepts → (s : State)
        → IsUpdate w o s → (k : ℕ) → s.recorded.version ≡ Some k → s.version < k → (v : World) (p : Options)
        → AcceptsWholeKeys v.accepts → IsLaterRun v p o.numbering s
        → IsOtherUpdate v p k (signed_digest s) → (m : Snapshot) (calls : List Call) (t : State)
        (end : Snapshot) → Applies v (begin p) m calls t end → OthersLeaveTarget m calls
        → is_some m.target ≡ true → leads_to_install t.due ≡ false }

    // In addition, suppose that a given key has signed the comment, that the comment is not rejected at the
    // time that is passed in, and that no operation fails. If the signature is that of a list, suppose also
    // that the key has signed the list, and that looking up the name in the list succeeds. Then the later run
    // ends with the error that different data of this version is installed (`SameNumber`), unless the update
    // is already at the target.
    ensures named { (w : World) (o : Options) → AcceptsWholeKeys w.accepts → (s : State)
        → IsUpdate w o s → (k : ℕ) → s.recorded.version ≡ Some k → s.version < k → (v : World) (p : Options)
        → AcceptsWholeKeys v.accepts → IsLaterRun v p o.numbering s
        → IsOtherUpdate v p k (signed_digest s) → (g : IsSigned v p) → IsListAccepted g
        → (m : Snapshot) (calls : List Call) (t : State) (end : Snapshot) → Applies v (begin p) m calls t end
        → OthersLeaveTarget m calls → is_some m.target ≡ true → AllEvents (IsAcceptableAt p k g.text) calls
        → has_ended t.due ≡ true
        → (t.due ≡ AlreadyInstalled) ⊎ ((t.due ≡ Rejected) × (t.error ≡ Some SameNumber)) }

    // The later run of the clause `not_undone` reads version k, and the digest of the data that was
    // installed or, with a list, of the list. So updates with a greater version are still installed, as
    // `any_good_update_arrives` says.
    ensures read_back { (w : World) (o : Options) → AcceptsWholeKeys w.accepts → (s : State)
        → IsUpdate w o s → (k : ℕ) → s.recorded.version ≡ Some k → s.version < k → (v : World) (p : Options)
        → IsLaterRun v p o.numbering s
        → judge_record p v.found_record ≡ Ok (record {
          version = Some k;
          key = record_key (new_record s);
          digest = Some (signed_digest s);
        }) }
{}
