//! The law of writes, over definitions alone.

ghost use Rattle.std.specs.Prelude.{◌≡◌, ◌≢◌, ℕ, nat_eq, Some, None};
ghost use Rattle.std.specs.List.{IsDistinct};
ghost use Rattle.std.specs.Map.{keys_of};
ghost use Rattle.std.specs.Option.{option_map};
ghost use Rattle.ymx_model.specs.session.Records.{End};
ghost use Rattle.ymx_model.specs.session.Tables.{Table as Records, with_record, insert_record, remove_record};
ghost use Rattle.ymx_machine.specs.shared.Lists.{look};
ghost use Rattle.ymx_table.specs.Others.{SameOthers};

/// A write to one stream, an insertion and a removal leave all other records as they were, in the same
/// order, and what is found under another id is the same. (A law over definitions: the function itself
/// does nothing.)
pub fn others_keep()
    ensures on_others { (id : ℕ) (f : End → End) (t : Records) → SameOthers id t (with_record id f t) }
    ensures added_others { (id : ℕ) (e : End) (t : Records) → look id t.entries ≡ None → SameOthers id t (insert_record id e t) }
    ensures removed_others { (id : ℕ) (t : Records) → IsDistinct nat_eq (keys_of t.entries) → SameOthers id t (remove_record id t) }
    ensures found_others { (id other : ℕ) (s t : Records) → SameOthers id s t → other ≢ id → look other t.entries ≡ look other s.entries }
    ensures on_ids { (id : ℕ) (f : End → End) (t : Records) → keys_of (with_record id f t).entries ≡ keys_of t.entries }
    ensures on_one { (id : ℕ) (f : End → End) (t : Records) → look id (with_record id f t).entries ≡ option_map f (look id t.entries) }
    ensures added_one { (id : ℕ) (e : End) (t : Records) → look id t.entries ≡ None → look id (insert_record id e t).entries ≡ Some e }
    ensures removed_one { (id : ℕ) (t : Records) → IsDistinct nat_eq (keys_of t.entries) → look id (remove_record id t).entries ≡ None }
{}
