//! The requests that the program executes.

use plist_forms::Form;

/// A command with its arguments.
#[derive(Debug, PartialEq, Eq, Drop)]
pub enum Request<'a> {
    /// No arguments: writes the canonical file of standard input to standard output.
    Filter,
    /// `convert FORM IN OUT`: converts a file to this form.
    Convert {
        form: Form,
        from: &'a str,
        to: &'a str,
    },
    /// `same A B`: compares the values of two files.
    Same {
        first: &'a str,
        second: &'a str,
    },
    /// `lint IN..`: checks whether each file is accepted.
    Lint {
        paths: Vec<&'a str>,
    },
    /// `check [--with-filename] IN..`: checks whether each file is canonical. Each line has its
    /// path if that is asked for, or if there are several.
    Check {
        named: bool,
        paths: Vec<&'a str>,
    },
    /// `print IN`: prints the value of a file to standard output.
    Print {
        path: &'a str,
    },
    /// `explain WHAT`: explains a refusal or a rule, or lists all of them.
    Explain {
        what: Option<&'a str>,
    },
}
