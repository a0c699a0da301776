//! The explanations of the rules of canonical files, in the order of their numbers. No line has
//! more than 79 columns.

use crate::topics::{Subject, Topic};

pub(crate) static RULES: [Topic; 8] = [
    (
        Subject::Rule(0),
        "every object can be read, and the value is within the limits",
        "\
`lint` says what is wrong, unless the value does not use the object named. If
`lint` accepts the file, the second line leaves out what is not used and writes
the canonical file:
  plistconv lint FILE
  plistconv convert binary1 FILE OUT",
    ),
    (
        Subject::Rule(1),
        "the trailer begins with six zeros, and the top object is 0",
        "\
The trailer is the last 32 bytes. Readers skip its first six, so that files
that differ only there have equal values; and some programs write the top
object last. To write the canonical file:
  plistconv convert binary1 FILE OUT",
    ),
    (
        Subject::Rule(2),
        "offsets and references have the least widths",
        "\
A file of up to 255 objects refers to them in one byte each, and has offsets of
one byte if the offset table begins before byte 256. Programs that always write
two or four bytes break this rule. To write the canonical file:
  plistconv convert binary1 FILE OUT",
    ),
    (
        Subject::Rule(3),
        "the objects follow one another",
        "\
Object 0 begins at byte 8, each other where the one before it ends, and the
offset table where the last one ends. Unused bytes between objects, or objects
that overlap, break this rule. To write the canonical file:
  plistconv convert binary1 FILE OUT",
    ),
    (
        Subject::Rule(4),
        "each object is as short as can be",
        "\
The integer 5 has one byte and not eight, a string of ASCII characters one byte
for each, and a length below 15 is part of the first byte. To write the
canonical file:
  plistconv convert binary1 FILE OUT",
    ),
    (
        Subject::Rule(5),
        "the keys of each dictionary ascend",
        "\
They are compared by UTF-16 units: \"B\" comes before \"a\", and \"a\" before \"ab\".
Many programs write keys in the order of a hash table, or as they were added,
and so break this rule. Two equal keys break it too; all other commands refuse
them, as 14. To write the canonical file:
  plistconv convert binary1 FILE OUT",
    ),
    (
        Subject::Rule(6),
        "no two objects are the same string, number, boolean, date or data",
        "\
A string that is used twice is there once, and both uses refer to it. Some
programs write it, or true and false, each time. 1 and 1.0 are different
numbers, as are reals of four and of eight bytes. To write the canonical file:
  plistconv convert binary1 FILE OUT",
    ),
    (
        Subject::Rule(7),
        "objects are numbered as they are first referred to, from object 0",
        "\
An array or dictionary is followed by what it contains, keys first. Programs
that number level by level, write an array once for two uses, or leave unused
objects in the file break this rule. To write the canonical file:
  plistconv convert binary1 FILE OUT",
    ),
];
