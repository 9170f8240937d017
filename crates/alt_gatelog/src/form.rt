//! The two forms of gated logs, and how each begins.

ghost use Rattle.std.specs.Prelude.{◌≡◌, ◌≢◌, ◌++◌, ◌∷◌, [], IfSome, IfNone};
ghost use Rattle.alt_gatelog.specs.Log.{header};
ghost use Rattle.alt_gatelog.specs.declared.form.Form as forms;

/// A form of gated logs, which its header names. Both are laid out alike; what their entries mean is the caller's.
#[derive(Clone, Copy, Debug, PartialEq, Eq, Drop)]
pub enum Form {
    /// `ALTLOG01`
    One,
    /// `ALTLOG02`
    Two,
}

/// An empty log: its header and a closed gate.
pub(crate) fn empty_log(form: Form) -> [u8; 9]
    ensures { result ≡ header form ++ 0 ∷ [] }
{
    match form {
        Form::One => *b"ALTLOG01\0",
        Form::Two => *b"ALTLOG02\0",
    }
}

/// The form that a header names, if these bytes are one.
pub(crate) fn form_of_header(head: &[u8]) -> Option<Form>
    ensures some { IfSome result (λ form. head.now ≡ header form) }
    ensures none { IfNone result ((form : forms.Form) → head.now ≢ header form) }
{
    if head == b"ALTLOG01".as_slice() {
        return Some(Form::One);
    }
    if head == b"ALTLOG02".as_slice() {
        return Some(Form::Two);
    }
    None
}
