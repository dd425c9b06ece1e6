//! What a colour keeps.

ghost use Rattle.std.specs.Prelude.{◌≡◌, cond, false, length, IfOk, None, Some};
ghost use Rattle.engine_player.specs.inner.Kept.{kept_of};

use std::alloc::{AllocError, Global};

/// What a colour keeps: a budget of captures that return for each region, or nothing.
#[derive(Drop)]
pub(crate) struct Kept {
    pub(crate) budgets: Vec<usize>,
    pub(crate) is_kept: bool,
}

impl Kept {
    /// Nothing, with room for a budget for each region.
    pub(crate) fn nothing(alloc: Global, regions: usize) -> Result<Kept, AllocError>
        ensures nothing { IfOk result (λ kept. kept.is_kept ≡ false) }
        ensures many { IfOk result (λ kept. length kept.budgets.items ≡ regions) }
    {
        let budgets = vec![in alloc; 0; regions]?;
        Ok(Kept {
            budgets,
            is_kept: false,
        })
    }

    /// Keeps these budgets, or nothing.
    pub(crate) fn put(&mut self, budgets: &[usize], are_kept: bool)
        requires { length self.old.budgets.items ≡ length budgets.now }
        ensures kept { kept_of self.new ≡ cond are_kept (Some budgets.now) None }
        ensures many { length self.new.budgets.items ≡ length self.old.budgets.items }
    {
        self.budgets.copy_from_slice(budgets);
        self.is_kept = are_kept;
    }

    /// Keeps nothing any more.
    pub(crate) fn forget(&mut self)
        ensures { self.new ≡ record self.old { is_kept = false } }
    {
        self.is_kept = false;
    }
}
