// What is answered a change.
ghost use Rattle.std.specs.Prelude.{◌≡◌, ◌↔◌, ℕ, IfOk, IfSome, IfNone, IsTrue, Option};
ghost use Rattle.canvas_model.specs.Change.{Create, Delete, Move, Set};
ghost use Rattle.canvas_model.specs.Document.{Name, place_of};
ghost use Rattle.canvas_model.specs.State as state;
ghost use Rattle.canvas_model.specs.Depth.{IsTooDeepUnder, MovesTooDeep};
ghost use Rattle.canvas_model.specs.Verdict.{Holds, Judges, LimitsDepth, NoneBefore, Refused, Verdict, rank};
ghost use Rattle.canvas_model.specs.Value.{Value};
ghost use Rattle.canvas_judge.specs.Choice.{ChoosesMiddle, PositionFor};
ghost use Rattle.canvas_judge.specs.Seen.{seen_outcome};

use crate::bounds::is_surely_within;
use crate::chains::{below, is_above};
use crate::{Outcome, State};
use canvas_doc::{Change, ChangeVariant, Doc, Kind, ObjId, Place};
use canvas_model::{Reason, Rule};
use canvas_pos::{Pos, between};
use std::alloc::{AllocError, Allocator};

impl<A: Allocator + Copy> State<A> {
    /// The verdict on a change by a client that has joined: a refusal for the first reason against it, in the order of `Reason`, or
    /// what it grants. If the asked position is another child's, the object gets the one half way between it and the next greater
    /// one of another child, or the end where there is none. A refused Move carries where its object stands. A deletion grants the
    /// object and all that lies below it. That the server refuses a move that would make a cycle is in "How Figma's multiplayer
    /// technology works" (2019). Errors: out of memory.
    pub fn judge<B: Allocator + Copy, C: Allocator>(
        &self,
        alloc: B,
        author: u32,
        change: &Change<C>,
    ) -> Result<Outcome<B>, AllocError>
        requires { IsTrue (state.joined self.now author) }
        ensures verdict { IfOk result (λ outcome. Verdict self.now author change.now (seen_outcome outcome)) }
        ensures middle { IfOk result (λ outcome. ChoosesMiddle self.now.doc change.now (seen_outcome outcome)) }
    {
        self.judge_under(alloc, Rule::Two, author, change)
    }

    // The same by this rule.
    pub(crate) fn judge_under<B: Allocator + Copy, C: Allocator>(
        &self,
        alloc: B,
        rule: Rule,
        author: u32,
        change: &Change<C>,
    ) -> Result<Outcome<B>, AllocError>
        ensures verdict { IfOk result (λ outcome. Judges rule self.now author change.now (seen_outcome outcome)) }
        ensures middle { IfOk result (λ outcome. ChoosesMiddle self.now.doc change.now (seen_outcome outcome)) }
    {
        match change.variant() {
            ChangeVariant::Create { id, kind, place } => {
                self.judge_create(alloc, rule, author, *id, *kind, place)
            }
            ChangeVariant::Set { id, .. } => Ok(self.judge_set(*id)),
            ChangeVariant::Move { id, place } => self.judge_move(alloc, rule, *id, place),
            ChangeVariant::Delete { id } => self.judge_delete(alloc, *id),
        }
    }

    // The verdict on a creation.
    fn judge_create<B: Allocator + Copy, C: Allocator>(
        &self,
        alloc: B,
        rule: Rule,
        author: u32,
        id: ObjId,
        kind: Kind,
        place: &Place<C>,
    ) -> Result<Outcome<B>, AllocError>
        ensures verdict { IfOk result (λ outcome. Judges rule self.now author (Create id kind place.now) (seen_outcome outcome)) }
        ensures middle { IfOk result (λ outcome. ChoosesMiddle self.now.doc (Create id kind place.now) (seen_outcome outcome)) }
    {
        if let Some(reason) = self.reason_against_create(rule, author, id, kind, place) {
            return Ok(Outcome::Refused {
                reason,
                stands: None,
            });
        }
        match position_for(alloc, &self.doc, id, place)? {
            Some(pos) => Ok(Outcome::Created(Place {
                parent: place.parent,
                pos,
            })),
            None => Ok(Outcome::Refused {
                reason: Reason::Crowded,
                stands: None,
            }),
        }
    }

    // The verdict on a change of a property, whoever asks.
    fn judge_set<B: Allocator>(&self, id: ObjId) -> Outcome<B>
        ensures { (rule : Rule) (author : ℕ) (name : Name) (value : Option Value) → Judges rule self.now author (Set id name value) (seen_outcome result) }
    {
        if self.doc.has(id) {
            Outcome::WasSet
        } else {
            Outcome::Refused {
                reason: Reason::Gone,
                stands: None,
            }
        }
    }

    // The verdict on a move, whoever asks.
    fn judge_move<B: Allocator + Copy, C: Allocator>(
        &self,
        alloc: B,
        rule: Rule,
        id: ObjId,
        place: &Place<C>,
    ) -> Result<Outcome<B>, AllocError>
        ensures verdict { IfOk result (λ outcome. (author : ℕ) → Judges rule self.now author (Move id place.now) (seen_outcome outcome)) }
        ensures middle { IfOk result (λ outcome. ChoosesMiddle self.now.doc (Move id place.now) (seen_outcome outcome)) }
    {
        if let Some(reason) = self.reason_against_move(alloc, rule, id, place)? {
            return self.refuse_move(alloc, id, reason);
        }
        match position_for(alloc, &self.doc, id, place)? {
            Some(pos) => Ok(Outcome::Moved(Place {
                parent: place.parent,
                pos,
            })),
            None => self.refuse_move(alloc, id, Reason::Crowded),
        }
    }

    // The refusal of a move, which carries the place where the object stands.
    fn refuse_move<B: Allocator + Copy>(
        &self,
        alloc: B,
        id: ObjId,
        reason: Reason,
    ) -> Result<Outcome<B>, AllocError>
        ensures { IfOk result (λ outcome. seen_outcome outcome ≡ Refused reason (place_of self.now.doc id)) }
    {
        let stands = match self.doc.place_of(id) {
            Some(place) => Some(place.copy_in(alloc)?),
            None => None,
        };
        Ok(Outcome::Refused { reason, stands })
    }

    // The verdict on a deletion, whoever asks.
    fn judge_delete<B: Allocator + Copy>(
        &self,
        alloc: B,
        id: ObjId,
    ) -> Result<Outcome<B>, AllocError>
        ensures { IfOk result (λ outcome. (rule : Rule) (author : ℕ) → Judges rule self.now author (Delete id) (seen_outcome outcome)) }
    {
        if id == ObjId::ROOT {
            return Ok(Outcome::Refused {
                reason: Reason::IsRoot,
                stands: None,
            });
        }
        if !self.doc.has(id) {
            return Ok(Outcome::Refused {
                reason: Reason::Gone,
                stands: None,
            });
        }
        let ids = below(alloc, &self.doc, id)?;
        Ok(Outcome::Removed(ids))
    }
}

impl<A: Allocator> State<A> {
    // The first reason against a creation, apart from want of room.
    fn reason_against_create<C: Allocator>(
        &self,
        rule: Rule,
        author: u32,
        id: ObjId,
        kind: Kind,
        place: &Place<C>,
    ) -> Option<Reason>
        ensures some { IfSome result (λ reason. Holds rule self.now author (Create id kind place.now) reason × NoneBefore rule self.now author (Create id kind place.now) (rank reason)) }
        ensures none { IfNone result (NoneBefore rule self.now author (Create id kind place.now) 8) }
    {
        if id == ObjId::ROOT {
            return Some(Reason::IsRoot);
        }
        if id.client != author || id.counter <= self.used(author) {
            return Some(Reason::BadId);
        }
        let Some(parent) = self.doc.kind_of(place.parent) else {
            return Some(Reason::ParentGone);
        };
        if !kind.may_stand_under(parent) {
            return Some(Reason::BadParent);
        }
        if self.creates_too_deep(rule, place.parent) {
            return Some(Reason::TooDeep);
        }
        None
    }

    // Checks whether the rule forbids a new object under this parent for its depth.
    fn creates_too_deep(&self, rule: Rule, parent: ObjId) -> bool
        ensures { IsTrue result ↔ LimitsDepth rule × IsTooDeepUnder self.now.doc parent }
    {
        match rule {
            Rule::One => false,
            Rule::Two => self.doc.is_too_deep_under(parent),
        }
    }

    // Checks whether the rule forbids that the object goes under this parent, for the depth of what would stand there. Fails only if
    // memory runs out.
    fn moves_too_deep<B: Allocator + Copy>(
        &self,
        alloc: B,
        rule: Rule,
        id: ObjId,
        parent: ObjId,
    ) -> Result<bool, AllocError>
        ensures { IfOk result (λ deep. IsTrue deep ↔ LimitsDepth rule × MovesTooDeep self.now.doc id parent) }
    {
        match rule {
            Rule::One => Ok(false),
            Rule::Two => {
                if is_surely_within(&self.doc, self.bound, id, parent) {
                    return Ok(false);
                }
                self.doc.moves_too_deep(alloc, id, parent)
            }
        }
    }

    // The first reason against a move, apart from want of room and from depth.
    fn reason_to_stay<C: Allocator>(&self, id: ObjId, place: &Place<C>) -> Option<Reason>
        ensures some { IfSome result (λ reason. (rule : Rule) (author : ℕ) → Holds rule self.now author (Move id place.now) reason × NoneBefore rule self.now author (Move id place.now) (rank reason)) }
        ensures none { IfNone result ((rule : Rule) (author : ℕ) → NoneBefore rule self.now author (Move id place.now) 7) }
    {
        if id == ObjId::ROOT {
            return Some(Reason::IsRoot);
        }
        let Some(kind) = self.doc.kind_of(id) else {
            return Some(Reason::Gone);
        };
        let Some(parent) = self.doc.kind_of(place.parent) else {
            return Some(Reason::ParentGone);
        };
        if !kind.may_stand_under(parent) {
            return Some(Reason::BadParent);
        }
        if is_above(&self.doc, id, place.parent) {
            return Some(Reason::Cycle);
        }
        None
    }

    // The first reason against a move, apart from want of room. Errors: out of memory.
    #[tactic(auto, using(crate::proofs::Against::none_deeper))]
    fn reason_against_move<B: Allocator + Copy, C: Allocator>(
        &self,
        alloc: B,
        rule: Rule,
        id: ObjId,
        place: &Place<C>,
    ) -> Result<Option<Reason>, AllocError>
        ensures some { IfOk result (λ found. IfSome found (λ reason. (author : ℕ) → Holds rule self.now author (Move id place.now) reason × NoneBefore rule self.now author (Move id place.now) (rank reason))) }
        ensures none { IfOk result (λ found. IfNone found ((author : ℕ) → NoneBefore rule self.now author (Move id place.now) 8)) }
    {
        if let Some(reason) = self.reason_to_stay(id, place) {
            return Ok(Some(reason));
        }
        if self.moves_too_deep(alloc, rule, id, place.parent)? {
            return Ok(Some(Reason::TooDeep));
        }
        Ok(None)
    }
}

// The position that an object gets which asks for this place: the asked one, or if that is taken, the one half way to the next
// sibling's. None where no position is left in between.
fn position_for<A: Allocator, B: Allocator + Copy, C: Allocator>(
    alloc: B,
    doc: &Doc<A>,
    id: ObjId,
    place: &Place<C>,
) -> Result<Option<Pos<B>>, AllocError>
    ensures { IfOk result (PositionFor doc.now id place.now) }
{
    if !doc.taken(place.parent, &place.pos, id) {
        let pos = place.pos.copy(alloc)?;
        return Ok(Some(pos));
    }
    let next = doc.next_position(place.parent, Some(&place.pos), id);
    between(alloc, Some(&place.pos), next)
}
