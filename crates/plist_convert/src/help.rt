//! The texts of `--help`: what the program and each of its commands read, write and print. No line
//! is wider than 80 columns, and the help of the program has at most 30 lines.

pub(crate) const ABOUT: &str = "Converts Apple property lists to their canonical form";

// The program without a command, its messages and its exit statuses.
pub(crate) const AFTER: &str = "\
Reads binary property lists (bplist00) and OpenStep texts. Make XML binary with:
  plistconv-canonicalise --from-xml -o OUT IN
  plistutil -i IN -f bin -o OUT  (macOS: plutil -convert binary1 -o OUT IN)

Without a command, converts standard input to standard output. If the input is
refused, one line that says so is written in place of the file.

All messages are on standard output, usage errors too: only 0 and 1 are answers.
Exit status: 0 done, equal, accepted or canonical; 1 different or not canonical;
2 an input is refused; 3 usage error; 4 I/O error; 5 out of memory.

`plistconv explain` lists what refusals mean, `man plistconv` says the rest.";

pub(crate) const CONVERT_ABOUT: &str = "Writes the property list of one file to another";

pub(crate) const CONVERT_AFTER: &str = "\
Reads a property list, a binary file or an OpenStep text, from IN and writes its
value to OUT: for binary1 as its canonical binary file, for openstep as a text.
OUT is created, or emptied, only after IN was accepted, and may be IN. But if
the disk is full, that file is lost: plistconv-canonicalise replaces a file in
one step. Prints nothing on success, else one line that says what is refused.

An OpenStep text holds strings, data, arrays and dictionaries. A value with a
number, a boolean or a date has none, and is refused with 40. Comments and the
layout of a text are not kept.

Messages are on standard output, usage errors too: check the exit status.

Example: plistconv convert binary1 Info.plist canonical.plist

Exit status:
  0  done
  2  IN is refused
  3  usage error
  4  a file cannot be read or written, or the line cannot be printed
  5  out of memory";

pub(crate) const SAME_ABOUT: &str = "Compares the values of two property lists";

pub(crate) const SAME_AFTER: &str = "\
Reads two property lists, binary files or OpenStep texts, from A and B, and
writes no file. Prints one line: equal or different, which tells values apart
and not bytes. If a file is refused, the line says which and why.

Messages are on standard output, usage errors too: only 0 and 1 are answers.

Example: plistconv same Info.plist canonical.plist

Exit status:
  0  equal
  1  different
  2  a file is refused
  3  usage error
  4  a file cannot be read, or the line cannot be printed
  5  out of memory";

pub(crate) const LINT_ABOUT: &str = "Checks whether a file is a property list";

pub(crate) const LINT_AFTER: &str = "\
Reads a property list, a binary file or an OpenStep text, from IN, and writes no
file. Prints one line: IN: OK, or what is refused, where, and why. Several files
get a line each, in the order given, and the greatest of their exit statuses.

XML is refused with 21. Each of these makes it binary; always use the same one,
since they write reals differently, in 4 bytes or in 8. The last is for macOS:
  plistconv-canonicalise --from-xml -o OUT IN
  plistutil -i IN -f bin -o OUT
  plutil -convert binary1 -o OUT IN

Messages are on standard output, usage errors too: only 0 means accepted.

Example: plistconv lint Info.plist

Exit status:
  0  accepted
  2  refused
  3  usage error
  4  the file cannot be read, or the line cannot be printed
  5  out of memory";

pub(crate) const CHECK_ABOUT: &str = "Checks whether a file is already canonical";

pub(crate) const CHECK_AFTER: &str = "\
Reads a binary property list (bplist00) from IN, and writes no file. Prints one
line: canonical, or a rule that is broken and the object at which this was seen,
such as broken C7 at object 0. Several files get a line each, as IN: canonical,
in the order given, and the greatest of their exit statuses. A single file too
has its path with --with-filename, as the last batch of xargs may be one.

  C0  every object can be read, and the value is within the limits
  C1  the trailer begins with six zeros, and the top object is 0
  C2  offsets and references have the least widths
  C3  the objects follow one another
  C4  every object is as short as can be
  C5  the keys of every dictionary ascend
  C6  no two objects are the same string, number, boolean, date or data
  C7  objects are numbered as they are first referred to, and only strings,
      numbers, booleans, dates and data are referred to again

Anything but a binary file is refused with 1 or 2; `plistconv lint` says what it
is. Messages are on standard output, usage errors too: only 0 and 1 are answers.

Example: plistconv check Info.plist

Exit status:
  0  canonical
  1  a rule is broken
  2  not a binary property list
  3  usage error
  4  the file cannot be read, or the line cannot be printed
  5  out of memory";

pub(crate) const PRINT_ABOUT: &str = "Prints the value of a file for people to read";

pub(crate) const PRINT_AFTER: &str = "\
Reads a property list, a binary file or an OpenStep text, from IN, and writes no
file. Prints its value, whatever it holds; if IN is refused, only one line that
says what is refused, where, and why.

Two values print the same if and only if they are equal, so a comparison of two
prints shows all that differs:
  plistconv-diff A B

Messages are on standard output, usage errors too: only 0 means a whole print.

Example: plistconv print Info.plist

Exit status:
  0  printed
  2  refused
  3  usage error
  4  the file cannot be read, or its value cannot be printed
  5  out of memory";

pub(crate) const EXPLAIN_ABOUT: &str = "Explains a refusal or a rule";

pub(crate) const EXPLAIN_AFTER: &str = "\
Prints what a refusal or a rule means, an example, and what to do. WHAT is the
number of a refusal, its name, or a rule that check names, in any case; or, in
quotes, the line that reports it. Without WHAT, prints a line for each of them.

Messages are on standard output, usage errors too: only 0 is an answer.

Example: plistconv explain 14
         plistconv explain DuplicateKey
         plistconv explain C5
         plistconv explain 'Info.plist: refused 14 DuplicateKey at object 0'

Exit status:
  0  explained
  3  usage error, or WHAT is no refusal and no rule
  4  the text cannot be printed
  5  out of memory";
