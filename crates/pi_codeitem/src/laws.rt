// What the rules on code items say in other words.

ghost use Rattle.std.specs.Prelude.{◌≡◌, ◌+◌, ◌<◌, ◌≤◌, ◌&&◌, ℕ, List, length, Bool, true, Some, None, is_some, slice_get};
ghost use Rattle.pi_insn.specs.declared.raw.RawInsn.{RawInsn as Insn};
ghost use Rattle.pi_format.specs.Rules.CodeItems.{HandlerList as Handlers, code_head, tries_at, lists_at, try_range, ranges_hold, is_list_at, code_lists, code_holds};
ghost use Rattle.pi_format.specs.Rules.Pieces.{Piece as Found, walk, first_insn};
ghost use Rattle.pi_codeitem.specs.Asking.{passes};
ghost use Rattle.pi_codeitem.specs.Lying.{FillUp, end_of};
ghost use Rattle.pi_codeitem.specs.Shared.{item_bytes, takes_words};

/// The law of walks: the pieces stand one behind the other from address 0 on, up to the stop, or else to the end.
pub fn pieces_fill_up()
    ensures { (units : List ℕ) → FillUp 0 (walk units).pieces (end_of (walk units).stop (length units)) }
{}

/// The law of tests: where no instruction breaks one, each passes it.
pub fn none_breaks()
    ensures { (test : ℕ → Insn → Bool) (pieces : List Found) → first_insn test pieces ≡ None → (k : ℕ) (p : Found) → slice_get pieces k ≡ Some p → passes test p ≡ true }
{}

/// The law of ranges: where a code item has handler lists, its ranges hold.
pub fn ranges_stand()
    ensures { (file : List ℕ) (at : ℕ) (lists : List Handlers) → code_lists file at ≡ Some lists → 0 < (code_head file at).tries → ranges_hold file at (code_head file at) ≡ true }
{}

/// The law of handler lists: each range of a code item that has such has one of them.
pub fn ranges_are_served()
    ensures { (file : List ℕ) (at : ℕ) (lists : List Handlers) → code_lists file at ≡ Some lists → (k : ℕ) → k < (code_head file at).tries → is_list_at lists (lists_at at (code_head file at) + (try_range file (tries_at at (code_head file at)) k).handlers) ≡ true }
{}

/// The law of parts: a code item holds for a method where it does for any, and takes the words of this one.
pub fn holds_in_parts()
    ensures { (file : List ℕ) (words at : ℕ) → code_holds file words at ≡ (is_some (item_bytes file at) && takes_words file words at) }
{}

/// The law of bytes: a code item stands in the file with all the bytes that it takes.
pub fn items_stand()
    ensures { (file : List ℕ) (at bytes : ℕ) → item_bytes file at ≡ Some bytes → at + bytes ≤ length file }
{}
