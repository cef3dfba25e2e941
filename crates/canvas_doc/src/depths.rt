// How deep objects stand, and how far what lies below them reaches.
ghost use Rattle.std.specs.Prelude.{◌≡◌, ◌↔◌, IfOk, IsTrue, Some};
ghost use Rattle.canvas_model.specs.Children.{parent_of};
ghost use Rattle.canvas_model.specs.Chain.{InTree};
ghost use Rattle.canvas_model.specs.Depth.{IsDepth, IsHeight, IsTooDeepUnder, LiesBelow, MovesTooDeep};
ghost use Rattle.canvas_doc.specs.Levels.{AreUnder};

use crate::spots::is_any_under;
use crate::{Doc, ObjId};
use canvas_model::DEPTH_LIMIT;
use std::alloc::{AllocError, Allocator};

impl<A: Allocator> Doc<A> {
    /// How deep the object stands: the root has 0, any other object in the tree one more than its parent. None for what isn't in
    /// the tree. Exact for every document. Takes no memory. Climbs to the root, with one look-up at each step.
    pub fn depth(&self, id: ObjId) -> Option<u64>
        ensures { IsDepth self.now id result }
    {
        let _objects = self.objects();
        let mut at = id;
        // A chain that leads to the root names no object twice.
        for steps in 0..self.len() {
            if at == ObjId::ROOT {
                return Some(steps as u64);
            }
            let Some(place) = self.place_of(at) else {
                return None;
            };
            at = place.parent;
        }
        None
    }

    /// Checks whether the object is the parent that some live object's place names. Takes no memory.
    pub fn has_children(&self, id: ObjId) -> bool
        ensures { IsTrue result ↔ (q : ObjId) × (parent_of self.now q ≡ Some id) }
    {
        is_any_under(&self.spots, id)
    }

    /// Checks whether something lies this many steps below the object, level by level: it asks once for the children of each object that
    /// lies fewer steps below. Exact for every document. Errors: out of memory.
    pub fn reaches<B: Allocator + Copy>(
        &self,
        alloc: B,
        id: ObjId,
        steps: u64,
    ) -> Result<bool, AllocError>
        ensures { IfOk result (λ far. IsTrue far ↔ (q : ObjId) × LiesBelow self.now steps q id) }
    {
        let mut level = Vec::new(alloc);
        if !self.has(id) {
            return Ok(false);
        }
        level.push(id)?;
        for _ in 0..steps {
            level = self.all_under(alloc, &level)?;
            if level.is_empty() {
                return Ok(false);
            }
        }
        Ok(true)
    }

    /// The most steps by which anything lies below the object, which must be in the tree. It asks once for the children of each
    /// object below it. Errors: out of memory.
    pub fn height<B: Allocator + Copy>(&self, alloc: B, id: ObjId) -> Result<u64, AllocError>
        requires { InTree self.now id }
        ensures { IfOk result (IsHeight self.now id) }
    {
        let _objects = self.objects();
        let mut level = Vec::new(alloc);
        level.push(id)?;
        // In the tree nothing lies as many steps below an object as there are objects.
        for steps in 0..self.len() {
            level = self.all_under(alloc, &level)?;
            if level.is_empty() {
                return Ok(steps as u64);
            }
        }
        Ok(0)
    }

    /// Checks whether a new object under this parent would stand deeper than an object may be put. Takes no memory.
    pub fn is_too_deep_under(&self, parent: ObjId) -> bool
        ensures { IsTrue result ↔ IsTooDeepUnder self.now parent }
    {
        let _objects = self.objects();
        match self.depth(parent) {
            Some(depth) => depth >= DEPTH_LIMIT,
            None => false,
        }
    }

    /// Checks whether the object goes under another parent than it has, where it or something below it would stand deeper than an object
    /// may be put. Errors: out of memory.
    pub fn moves_too_deep<B: Allocator + Copy>(
        &self,
        alloc: B,
        id: ObjId,
        parent: ObjId,
    ) -> Result<bool, AllocError>
        ensures { IfOk result (λ deep. IsTrue deep ↔ MovesTooDeep self.now id parent) }
    {
        let _objects = self.objects();
        if self.stands_under(id, parent) {
            return Ok(false);
        }
        match self.depth(parent) {
            Some(depth) => self.reaches(alloc, id, DEPTH_LIMIT.saturating_sub(depth)),
            None => Ok(false),
        }
    }

    // Checks whether the object's place names this parent.
    fn stands_under(&self, id: ObjId, parent: ObjId) -> bool
        ensures { IsTrue result ↔ (parent_of self.now id ≡ Some parent) }
    {
        match self.place_of(id) {
            Some(place) => place.parent == parent,
            None => false,
        }
    }

    // The children of these objects.
    fn all_under<B: Allocator + Copy>(
        &self,
        alloc: B,
        parents: &[ObjId],
    ) -> Result<Vec<ObjId, B>, AllocError>
        ensures { IfOk result (λ ids. AreUnder self.now parents.now ids.items) }
    {
        let mut ids = Vec::new(alloc);
        for parent in parents {
            let children = self.children(alloc, *parent)?;
            ids.extend_from_slice(&children)?;
        }
        Ok(ids)
    }
}
