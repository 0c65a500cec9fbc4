// What an office keeps in memory of its tables.
ghost use Rattle.std.specs.Prelude.{◌≡◌, ◌↔◌, ◌+◌, ◌≤◌, ◌<◌, ℕ, IfNone, IfOk, IfSome, IsTrue, None, Some, is_some};
ghost use Rattle.exam_terms.specs.declared.limits.TheConstants.{MAX_BATCHES, MAX_DRAFTS};
ghost use Rattle.exam_model.specs.Enrolments.{Enrolled};
ghost use Rattle.exam_model.specs.Instance.{Session};
ghost use Rattle.office_model.specs.Publishing.{publication_rows};
ghost use Rattle.office_records.specs.FoundPublications.{publication_from};
ghost use Rattle.office_records.specs.Memory.{HasNoNightWeight, draft_at};
ghost use Rattle.office_records.specs.Publications.{placed_rows};
ghost use Rattle.office_store.specs.Memory.{AreUnjudged, HasJudged, HasPublished, HasPut, IsBatchApplied};
ghost use Rattle.office_store.specs.Memory.{judged_at};

use exam_model::{Enrolments, Instance, Timetable};
use exam_publish::SeatRow;
use exam_rules::Breach;
use exam_score::Parts;
use exam_terms::limits::MAX_DRAFTS;
use office_records::{Draft, Drafts, NUMBERS, no_drafts, placement_rows};
use office_tables::tables::PlacedRow;
use std::alloc::{AllocError, Global};

// Breaches of drafts, each draft's at its number's index.
pub(crate) type JudgedDrafts = [Option<Vec<Breach>>; NUMBERS];

// More breaches of a draft aren't kept.
const MOST_BREACHES: usize = 10_000;

// What the tables hold of the session, the batches, the drafts and the publication.
#[derive(Drop)]
pub(crate) struct OfficeMemory {
    // The session and its live enrolments, once there is one.
    pub(crate) kept: Option<(Instance, Enrolments)>,
    // How many batches the office keeps.
    pub(crate) batches: usize,
    pub(crate) drafts: Drafts,
    // The published timetable with its seat rows, by exam and then by student, if there is one.
    pub(crate) published: Option<(Timetable, Vec<SeatRow>)>,
    // Its penalty, with the enrolments at that time.
    pub(crate) priced: Option<Parts>,
    // The breaches of the drafts that were asked for, until the draft or the enrolments change.
    pub(crate) judged: JudgedDrafts,
}

impl OfficeMemory {
    // Returns what is in memory before a load.
    pub(crate) fn new() -> OfficeMemory
        ensures kept { result.kept ≡ None }
        ensures batches { result.batches ≡ 0 }
        ensures drafts { (d : ℕ) → draft_at result.drafts d ≡ None }
        ensures published { result.published ≡ None }
        ensures priced { result.priced ≡ None }
        ensures judged { AreUnjudged result.judged }
    {
        OfficeMemory {
            kept: None,
            batches: 0,
            drafts: no_drafts(),
            published: None,
            priced: None,
            judged: no_breaches(),
        }
    }

    // Returns what is in memory of a session that has just been loaded.
    pub(crate) fn of_session(instance: Instance, enrolments: Enrolments) -> OfficeMemory
        ensures kept { result.kept ≡ Some (instance, enrolments) }
        ensures batches { result.batches ≡ 0 }
        ensures drafts { (d : ℕ) → draft_at result.drafts d ≡ None }
        ensures published { result.published ≡ None }
        ensures priced { result.priced ≡ None }
        ensures judged { AreUnjudged result.judged }
    {
        OfficeMemory {
            kept: Some((instance, enrolments)),
            batches: 0,
            drafts: no_drafts(),
            published: None,
            priced: None,
            judged: no_breaches(),
        }
    }

    // Returns whether the weight of exams over night is 0; there is none before a load.
    pub(crate) fn has_no_night_weight(&self) -> bool
        ensures { IsTrue result ↔ HasNoNightWeight self.now.kept }
    {
        match &self.kept {
            Some((instance, _)) => instance.weights().night == 0,
            None => true,
        }
    }

    // Returns the draft of a number, if there is one.
    pub(crate) fn draft(&self, number: u32) -> Option<&Draft>
        ensures some { IfSome result (λ draft. draft_at self.now.drafts number ≡ Some draft.now) }
        ensures none { IfNone result (draft_at self.now.drafts number ≡ None) }
    {
        match self.drafts.get(number as usize) {
            Some(Some(draft)) => Some(draft),
            _ => None,
        }
    }

    // Returns whether there is a draft of a number.
    pub(crate) fn has_draft(&self, number: u32) -> bool
        ensures { result ≡ is_some (draft_at self.now.drafts number) }
    {
        self.draft(number).is_some()
    }

    // Puts a draft, or none, under a number, in place of what is there.
    pub(crate) fn put(&mut self, number: u32, draft: Option<Draft>)
        ensures put { number ≤ MAX_DRAFTS → HasPut number draft self.old self.new }
        ensures beyond { MAX_DRAFTS < number → self.new ≡ self.old }
    {
        if number <= MAX_DRAFTS {
            self.drafts[number as usize] = draft;
            self.judged[number as usize] = None;
        }
    }

    // Returns the breaches of the draft of a number, if they are in memory.
    pub(crate) fn judged(&self, number: u32) -> Option<&Vec<Breach>>
        ensures { IfSome result (λ found. judged_at self.now.judged number ≡ Some found.now) }
    {
        match self.judged.get(number as usize) {
            Some(Some(found)) => Some(found),
            _ => None,
        }
    }

    // Keeps the breaches of the draft of a number, or none.
    pub(crate) fn keep_breaches(&mut self, number: u32, found: Option<Vec<Breach>>)
        ensures put { number ≤ MAX_DRAFTS → HasJudged number found self.old self.new }
        ensures beyond { MAX_DRAFTS < number → self.new ≡ self.old }
    {
        if number <= MAX_DRAFTS {
            self.judged[number as usize] = found;
        }
    }

    // Replaces the publication by a timetable with its seat rows and its penalty.
    pub(crate) fn publish(&mut self, published: (Timetable, Vec<SeatRow>), penalty: Parts)
        ensures { HasPublished published penalty self.old self.new }
    {
        self.published = Some(published);
        self.priced = Some(penalty);
    }

    // Returns the seat rows of the publication; none if nothing is published.
    pub(crate) fn published_rows(&self) -> &[SeatRow]
        ensures { result.now ≡ publication_rows (publication_from self.now.published) }
    {
        match &self.published {
            Some((_, rows)) => rows,
            None => &[],
        }
    }

    // Returns the placement rows of the publication, by exam; none if nothing is published.
    pub(crate) fn published_places(&self, alloc: Global) -> Result<Vec<PlacedRow>, AllocError>
        ensures { IfOk result
            (λ rows. rows.items ≡ placed_rows (publication_from self.now.published)) }
    {
        match &self.published {
            Some((timetable, _)) => placement_rows(alloc, timetable),
            None => Ok(Vec::new(alloc)),
        }
    }

    // Counts one batch more, and replaces the enrolments and the drafts if a line changed them.
    pub(crate) fn apply_batch(&mut self, enrolments: Option<Enrolments>, drafts: Drafts)
        requires room { self.old.batches < MAX_BATCHES }
        ensures batches { self.new.batches ≡ self.old.batches + 1 }
        ensures renewed { (I : Session) (E : Enrolled) → self.old.kept ≡ Some (I, E)
            → IsBatchApplied I E enrolments drafts self.old self.new }
        ensures published { self.new.published ≡ self.old.published }
        ensures priced { self.new.priced ≡ self.old.priced }
    {
        self.batches += 1;
        let Some(enrolments) = enrolments else {
            return;
        };
        if let Some((instance, _)) = self.kept.take() {
            self.kept = Some((instance, enrolments));
            self.drafts = drafts;
            self.judged = no_breaches();
        }
    }
}

// Returns no breaches under any number.
pub(crate) fn no_breaches() -> JudgedDrafts
    ensures { AreUnjudged result }
{
    [None, None, None, None, None, None, None, None, None]
}

// Returns a copy of breaches. `None`: they are many, or memory is short.
pub(crate) fn few_breaches(alloc: Global, found: &[Breach]) -> Option<Vec<Breach>>
    ensures { IfSome result (λ few. few.items ≡ found.now) }
{
    if found.len() > MOST_BREACHES {
        return None;
    }
    match Vec::from_slice(alloc, found) {
        Ok(few) => Some(few),
        Err(_) => None,
    }
}
