//! A law of the rows. The function is empty; its contract is the law.
ghost use Rattle.std.specs.Prelude.{◌≡◌, ◌++◌, List, map};
ghost use Rattle.std.specs.List.{filter_map, flat_map};
ghost use Rattle.rina_report.specs.declared.note.Note.{Note};
ghost use Rattle.rina_view.specs.declared.row.Row.{Row};
ghost use Rattle.rina_view.specs.declared.shown.Off.{Off};
ghost use Rattle.rina_view.specs.declared.shown.End.{End};
ghost use Rattle.rina_view.specs.declared.gather.EntryKind.{EntryKind};
ghost use Rattle.rina_view.specs.Rows.{rows_of};
ghost use Rattle.rina_view.specs.Shown.{sent_entry, entries_in, ends_in};

/// Each SDU that notes show as sent has one row, in the order of the notes; before the first end of a flow none has.
pub fn each_sdu_sent_has_its_row()
    ensures { (ns : List Note) (ends : List End) (offs : List Off) → filter_map sent_entry ns ≡ entries_in EntryKind.Sent ns ++ flat_map (λ (end : End). map (λ (r : Row). r.sent) (rows_of ends offs end)) (ends_in ns) }
{}
