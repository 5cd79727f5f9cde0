//! The laws of a checked script's meaning.
ghost use Rattle.std.specs.Prelude.{◌≡◌, ◌≢◌, ℕ, List, Some, Err};
ghost use Rattle.nb_base.specs.Meanings.{IsMeaning};
ghost use Rattle.nb_base.specs.Messages.{Message};
ghost use Rattle.nb_base.specs.Shown.{Stored, shown, seen};
ghost use Rattle.nb_base.specs.Sound.{IsSoundStored};
ghost use Rattle.nb_base.specs.declared.plan.Plan.{Plan};
ghost use Rattle.nb_base.specs.declared.plan.Verdict.TheVariants.{Done};
ghost use Rattle.nb_base.specs.declared.saga_row.Seen.{Seen};
ghost use Rattle.nb_base.specs.declared.value.Field.{Field};
ghost use Rattle.nb_base.specs.declared.value.Key.{Key};
ghost use Rattle.nb_check.specs.Checks.{declared_names, body_fields, keys_read};
ghost use Rattle.nb_check.specs.Declarations.{sagas};
ghost use Rattle.nb_check.specs.Meets.{incoming};
ghost use Rattle.nb_check.specs.declared.incoming.Incoming.{Incoming};
ghost use Rattle.nb_eval.specs.Meanings.{meaning_of, FitsLook};
ghost use Rattle.nb_eval.specs.Reach.{AreReached};
ghost use Rattle.nb_eval.specs.Verdicts.{world_at, handled, verdict_over};
ghost use Rattle.nb_eval.specs.Worlds.{seen_in};
ghost use Rattle.nb_eval.specs.declared.stop.Stop.TheVariants.{Wrong};
ghost use Rattle.nb_script.specs.Tree.{script};

use nb_check::Checked;

/// A checked script never meets a value of a wrong kind, over tables whose sagas fit.
pub fn law_never_wrong(c: &Checked)
    ensures { (e : Message) (at : ℕ) (look : Key → Seen) → FitsLook (sagas (script c.now)) look
        → (m : Incoming) (fields : List Field) → incoming (declared_names (script c.now)) e ≡ Some m
        → body_fields (script c.now) m.message e.body ≡ Some fields
        → handled (script c.now) m (world_at e fields at look) ≢ Err Wrong }
{
    let _rules = c.items();
    let _count = c.block_count();
}

/// The verdict over what tables show at the message's keys is the verdict over the tables.
pub fn law_reads(c: &Checked)
    ensures { (t : Stored) (e : Message) (at : ℕ)
        → verdict_over (script c.now) (seen_in (seen t (keys_read (script c.now) e))) e at
        ≡ verdict_over (script c.now) (shown t) e at }
{
    let _rules = c.items();
}

/// Two tables that show the same at the message's keys have the same verdict.
pub fn law_same_reads(c: &Checked)
    ensures { (t u : Stored) (e : Message) (at : ℕ)
        → seen t (keys_read (script c.now) e) ≡ seen u (keys_read (script c.now) e)
        → verdict_over (script c.now) (shown t) e at ≡ verdict_over (script c.now) (shown u) e at }
{
    let _rules = c.items();
}

/// A plan writes nowhere else than where the message's keys lead: to their rows, to their correlation values, and to the
/// places of the sagas that have their ids.
pub fn law_writes(c: &Checked)
    ensures { (t : Stored) → IsSoundStored t → (e : Message) (at : ℕ) (plan : Plan)
        → verdict_over (script c.now) (shown t) e at ≡ Done plan
        → AreReached t (keys_read (script c.now) e) plan }
{
    let _rules = c.items();
}

/// A checked script's meaning depends on the tables at the message's keys alone, and its plans keep sound tables sound.
pub fn law_meaning(c: &Checked)
    ensures { IsMeaning (meaning_of (script c.now)) }
{
    let _rules = c.items();
}
