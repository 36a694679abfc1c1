//! Laws of charts. The functions are empty; their contracts are the laws.
ghost use Rattle.std.specs.Prelude.{◌≡◌, ◌&&◌, List, Option, ℕ, count_by, is_none, is_some, true};
ghost use Rattle.rina_chart.specs.declared.frame.Frame.{Frame};
ghost use Rattle.rina_chart.specs.declared.mark.Mark.{Mark};
ghost use Rattle.rina_chart.specs.declared.sdu.Sdu.{Sdu};
ghost use Rattle.rina_chart.specs.declared.window.Window.{Window};
ghost use Rattle.rina_chart.specs.Escapes.{escaped, is_safe};
ghost use Rattle.rina_chart.specs.Events.{events_in, is_got, is_not_got, is_shown, shown_sdus};
ghost use Rattle.rina_chart.specs.Sdus.{meets};
ghost use Rattle.rina_chart.specs.Shapes.{is_arrow, is_cross, picture};

/// A text that is escaped has none of `<`, `>`, `"` and `'`, no byte that XML does not allow, and an `&` only where an entity begins.
pub fn what_is_escaped_is_safe()
    ensures { (bytes : List ℕ) → is_safe (escaped bytes) ≡ true }
{}

/// A picture has as many arrows as there are SDUs that arrived and meet its window, and as many crosses as there are SDUs that did not arrive and
/// meet it.
pub fn each_sdu_in_the_window_is_drawn()
    ensures arrows { (frame : Frame) (nodes : List (List ℕ)) (ss : List Sdu) → count_by is_arrow (picture frame nodes ss) ≡ count_by (λ (s : Sdu). meets frame.window s && is_some s.got) ss }
    ensures crosses { (frame : Frame) (nodes : List (List ℕ)) (ss : List Sdu) → count_by is_cross (picture frame nodes ss) ≡ count_by (λ (s : Sdu). meets frame.window s && is_none s.got) ss }
{}

/// A chart in columns has as many rows with an arrow as there are SDUs that arrived and are in its window, and as many with a cross as there are SDUs
/// in it that did not arrive. Where no window is asked for, all are in it.
pub fn each_sdu_in_the_window_has_its_row()
    ensures arrows { (window : Option Window) (ms : List Mark) (ss : List Sdu) → count_by is_got (events_in ms (shown_sdus window ss)) ≡ count_by (λ (s : Sdu). is_shown window s && is_some s.got) ss }
    ensures crosses { (window : Option Window) (ms : List Mark) (ss : List Sdu) → count_by is_not_got (events_in ms (shown_sdus window ss)) ≡ count_by (λ (s : Sdu). is_shown window s && is_none s.got) ss }
{}
