ghost use Rattle.run_inputs.specs.Script.{TextsTellScripts};

/// A text says one script at most and has one fault at most, and never both.
pub fn texts_tell_scripts()
    ensures { TextsTellScripts }
{}
