// The laws of what goes along the edges of a play, each on a function that does nothing.
ghost use Rattle.pb_language.specs.Judgement.{Exit};
ghost use Rattle.pb_language.specs.Links.{Way, led};
ghost use Rattle.pb_language.specs.Ordered.{ExitLe};
ghost use Rattle.pb_language.specs.Setting.{Setting};
ghost use Rattle.pb_language.specs.Task.{Task};
ghost use Rattle.pb_language.specs.Wells.{WellExit, WellViews};

/// What goes along an edge goes up with what is known before it, and is well formed where that is.
pub fn what_is_led_goes_up()
    ensures up { (st : Setting) (t : Task) (w : Way) (e f : Exit) → WellViews st.views
        → WellExit e → WellExit f → ExitLe e f → ExitLe (led st t w e) (led st t w f) }
    ensures well { (st : Setting) (t : Task) (w : Way) (e : Exit) → WellViews st.views
        → WellExit e → WellExit (led st t w e) }
{}
