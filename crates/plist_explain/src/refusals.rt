//! The explanations of refusals, in the order of their numbers. No line has more than 79 columns.

use crate::topics::{Subject, Topic};
use plist_value::Refusal;

pub(crate) static REFUSALS: [Topic; 35] = [
    (
        Subject::Refusal(Refusal::TooShort),
        "fewer than 42 bytes, too few for a binary property list",
        "\
The smallest binary property list has 42 bytes: this file was cut off, or it is
something else. `check` reads every file as binary and answers this for a short
OpenStep text or XML file too, since these have no canonical form of their own.
To see what such a file is:
  plistconv lint FILE",
    ),
    (
        Subject::Refusal(Refusal::BadHeader),
        "the file does not begin with bplist00",
        "\
A binary property list begins with the 8 bytes bplist00; bplist15, say, is not
read. `check` reads every file as binary and answers this for an OpenStep text
or XML file, since these have no canonical form of their own. To see what such
a file is, and to write the canonical file of a text:
  plistconv lint FILE
  plistconv convert binary1 FILE OUT",
    ),
    (
        Subject::Refusal(Refusal::BadTrailer),
        "the last 32 bytes do not fit the file",
        "\
The last 32 bytes, the trailer, say how many objects the file has, which one is
the top, and where the table of their offsets is. Here this does not fit the
length of the file, for example because bytes are missing at the end or were
added there. Fetch the file again; a transfer as text damages it. So does git
if .gitattributes has `*.plist text` or eol=crlf, which change line ends. Write
`*.plist -text` there. This tells whether the copy of git is whole:
  git show HEAD:./FILE | plistconv lint /dev/stdin
If it is, check the file out again. If it is not, git changed the file when it
was added: take the file from where it was made, and add it again.",
    ),
    (
        Subject::Refusal(Refusal::BadOffset),
        "an object does not begin where objects can be",
        "\
Objects are between the 8 bytes of the header and the offset table. The object
named, counted from 0 in that table, is said to begin elsewhere: after the end
of the file, say. The file is damaged, or the program that wrote it has a bug.
Fetch the file again, or write it again with another program.",
    ),
    (
        Subject::Refusal(Refusal::BadReference),
        "an array or dictionary refers to an object that is not there",
        "\
Arrays and dictionaries refer to what they contain by number. The one named
refers to a number that no object has: 5, say, in a file of 5 objects, which
are 0 to 4. The file is damaged, or the program that wrote it has a bug. Fetch
the file again, or write it again with another program.",
    ),
    (
        Subject::Refusal(Refusal::CutObject),
        "an object is longer than what is left for it",
        "\
The object named reaches past the end of all objects: a string that should have
100 characters, say, of which only 20 are there. The file is damaged, or the
program that wrote it has a bug. Fetch the file again, or write it again with
another program.",
    ),
    (
        Subject::Refusal(Refusal::BadMarker),
        "an object is of no kind that the format has",
        "\
The first byte of an object says what it is: 10 is an integer, 51 a string of
one character. That of the object named is none of those: 7f, say. Or a length
follows it and is no integer. The file is damaged, or the program that wrote it
has a bug. Fetch the file again, or write it again with another program.",
    ),
    (
        Subject::Refusal(Refusal::NullObject),
        "the file has a null, which is no property list value",
        "\
A null stands for a value that is missing. Binary files can have one, but no
other form of property lists can, and plistconv reads none. In the program that
writes the file, leave the key out, or write an empty string or false.",
    ),
    (
        Subject::Refusal(Refusal::UidObject),
        "the file is a keyed archive: it has a UID",
        "\
NSKeyedArchiver writes such files, with the keys $archiver and $objects. A UID
is how one object of the archive refers to another. It is no property list
value, so plistconv reads none. Two archives of equal objects can differ, so
compare them in the program that reads them. To look into one on macOS:
  plutil -p FILE",
    ),
    (
        Subject::Refusal(Refusal::SetObject),
        "the file has a set, which is no property list value",
        "\
A set is an array without an order. Binary files can have one, but no other
form of property lists can, and plistconv reads none. In the program that
writes the file, write an array, sorted so that equal sets are equal files.",
    ),
    (
        Subject::Refusal(Refusal::NotAscii),
        "a string that should be ASCII has a byte above 7f",
        "\
A binary file has its strings in ASCII or in UTF-16. The one named says that it
is ASCII, but has a byte that is not: e9, say, an accented letter of Latin-1.
The program that wrote the file has a bug: such a string belongs in UTF-16.
Write the file again with another program.",
    ),
    (
        Subject::Refusal(Refusal::WideInteger),
        "an integer of 16 bytes is out of range",
        "\
Integers go from -2^63 to 2^64 - 1. In 16 bytes only those from 0 are written,
so the first eight bytes are zero; in the object named they are not. It is 2^64
or more, or negative in a form that is not read. In the program that writes the
file, write a number out of range as a string.",
    ),
    (
        Subject::Refusal(Refusal::KeyNotText),
        "a key of a dictionary is not a string",
        "\
In a binary file a key can be any object, but only strings can be keys of a
property list. The dictionary named has another one: the integer 1, say. In the
program that writes the file, turn its keys into strings: \"1\".",
    ),
    (
        Subject::Refusal(Refusal::DuplicateKey),
        "a dictionary has the same key twice",
        "\
As in { a = 1; b = 2; a = 3; }: programs differ on which value counts, so leave
only one. In a text `plistconv-where FILE OFFSET` shows the line of the second
key; in a binary file `plistconv-where FILE object NUMBER` names a key that is
there again. This prints each of them in a binary file:
python3 -c 'import plistlib, sys
class Keys(dict):
  __setitem__ = lambda d, k, v: print(k) if k in d else d.update({k: v})
plistlib.load(open(sys.argv[1], \"rb\"), dict_type=Keys)' FILE",
    ),
    (
        Subject::Refusal(Refusal::Cycle),
        "an array or dictionary contains itself",
        "\
A reference leads from what is inside an array or dictionary back to it: object
0 is an array, say, whose only item is object 0. Such a value has no end. The
file is damaged, or was made to do harm: do not open it with other programs.",
    ),
    (
        Subject::Refusal(Refusal::TooDeep),
        "the value is more than 512 levels deep",
        "\
A string alone is one level, an array of strings two, an array of such arrays
three. More than 512 are a sign of a program that went astray, or of a file
made to do harm. In a program of your own, write one long array of items that
name their parents, not items within items.",
    ),
    (
        Subject::Refusal(Refusal::TooManyNodes),
        "the value has more than 16,777,216 nodes",
        "\
Each key, string, number, array and so on is a node. What a binary file has
once and refers to many times counts each time, so that even a small file, made
to do harm, can pass the limit. Split a large property list into several.",
    ),
    (
        Subject::Refusal(Refusal::TooMuchPayload),
        "more than 1,073,741,824 bytes of strings and data",
        "\
Each UTF-16 unit of a string or key counts as two bytes, each byte of data as
one. What a binary file has once and refers to many times counts each time.
Keep long data in files of their own, and write the names of these files.",
    ),
    (
        Subject::Refusal(Refusal::BadUtf8),
        "the text is not in UTF-8",
        "\
A text is read as UTF-8, or as UTF-16 if it begins with a byte order mark. At
the byte named there is no character of UTF-8. A picture, a zip archive, or any
other file that is no property list, is refused like this too. If it was made
by gzip, this shows what is in it:
  gunzip < FILE | plistconv print /dev/stdin
If it begins with <?xml, it is XML in another encoding, which its first line
names. iconv leaves that line as it is, so that letters go wrong later. Use
  plistconv-canonicalise --from-xml -o OUT FILE
Old texts are often in Latin-1 or MacRoman. See which of these prints the right
letters, and write what that iconv prints to another file:
  iconv -f LATIN1 -t UTF-8 FILE | plistconv print /dev/stdin
  iconv -f MACINTOSH -t UTF-8 FILE | plistconv print /dev/stdin",
    ),
    (
        Subject::Refusal(Refusal::XmlForm),
        "the text begins like XML, which has to be made binary first",
        "\
It begins with <?xml, <!DOCTYPE or <plist, and plistconv does not read XML. If
it begins with <!DOCTYPE html, it is a web page, such as servers send in place
of a file: fetch the file again. Each of these makes an XML property list
binary. Always use the same one: plistutil writes 2.5 in 4 bytes,
plistconv-canonicalise in 8. The last is for macOS alone.
  plistconv-canonicalise --from-xml -o OUT FILE
  plistutil -i FILE -f bin -o OUT
  plutil -convert binary1 -o OUT FILE",
    ),
    (
        Subject::Refusal(Refusal::UnexpectedCharacter),
        "a character that is not allowed outside quotes",
        "\
A string needs quotes if it has other characters than ASCII letters and digits
and _ $ / : . - as in name = \"Tea + milk\"; the quotes must be straight ones.
A comment begins with // or is between /* and */; # begins none. A text in
UTF-16 without a byte order mark has bytes 00, and is refused like this too. To
see such bytes, and what the text is (some need -f UTF-16BE):
  od -c FILE | head
  iconv -f UTF-16LE -t UTF-8 FILE | plistconv print /dev/stdin
JSON, with its [ and ], is none of the forms that are read: have a program that
reads JSON write a binary property list, as this does on macOS:
  plutil -convert binary1 -o OUT FILE",
    ),
    (
        Subject::Refusal(Refusal::UnclosedString),
        "a quoted string has no end",
        "\
The string begins with the quote at the byte named, \" or ', and ends at the
next one of the same kind. A quote after a backslash does not end it, so that
\"C:\\\" goes on: write \"C:\\\\\" for a backslash at the end. To see the line:
  plistconv-where FILE OFFSET",
    ),
    (
        Subject::Refusal(Refusal::UnclosedComment),
        "a comment has no end",
        "\
The comment begins with the /* at the byte named, and ends at the next */, but
there is none. Add it, or put quotes around a string that begins with /*.",
    ),
    (
        Subject::Refusal(Refusal::BadEscape),
        "no hexadecimal digit follows \\U",
        "\
In quotes \\U and up to four hexadecimal digits are a character: \\U20ac is the
euro sign. In \"C:\\Users\" no digit follows: write a backslash as two, as in
\"C:\\\\Users\".",
    ),
    (
        Subject::Refusal(Refusal::OctalRange),
        "an octal escape is above \\177",
        "\
In quotes a backslash and up to three octal digits are an ASCII character:
\\101 is A. Above \\177 programs differ on what they mean. Write \\U and the
digits of the character in Unicode: \\U00e9 for an e with an acute accent.",
    ),
    (
        Subject::Refusal(Refusal::OddData),
        "a hexadecimal digit of data is alone",
        "\
Data is written between < and > with two digits for each byte, as <0a1b 2c>. In
<0a1> the 1 has no second digit: write <0a01> or <0a10>, whichever is meant. A
blank may be between two bytes, but not between the digits of one.",
    ),
    (
        Subject::Refusal(Refusal::BadData),
        "data has something other than hexadecimal digits, or no end",
        "\
Data is written between < and > with two digits for each byte, as <0a1b 2c>. A
string that begins with < needs quotes: \"<none>\". Seven < are the mark of a
merge conflict: keep one of its sides, and delete the lines of <<<<<<<, =======
and >>>>>>>. HTML is no property list, and numbers that GNUstep writes as <*I5>
are not read.",
    ),
    (
        Subject::Refusal(Refusal::Expected),
        "something else has to be here, or the text ends too early",
        "\
Mostly a ; is missing just before, or a } or ) at the end. A dictionary has a ;
after each value, an array a comma between items:
  { name = Anna; languages = (en, fr); }
JSON, with its : and , in dictionaries, is none of the forms that are read:
have a program that reads JSON write a binary property list.",
    ),
    (
        Subject::Refusal(Refusal::Junk),
        "the text goes on after the end of its value",
        "\
A text is one value, and there is more after it: a } too many, say, or a second
value, which belongs in a file of its own. A string of several words needs
quotes: \"two words\". A file that is no property list is refused like this too:
YAML, say, or a pointer of Git LFS, which begins with: version https://git-lfs
In its place this fetches the file itself:
  git lfs pull",
    ),
    (
        Subject::Refusal(Refusal::BadUtf16),
        "the text begins like UTF-16 but is not",
        "\
It begins with a byte order mark, ff fe or fe ff, so that two bytes are a unit.
At the byte named one byte is left over, or half of a pair of surrogates is
alone: the file was cut off, or is in another encoding after a mark that does
not belong there. Fetch it again.",
    ),
    (
        Subject::Refusal(Refusal::NotInOpenStep),
        "the value has a kind that OpenStep texts cannot hold",
        "\
An OpenStep text holds strings, data, arrays and dictionaries. It has no way to
write integers, reals, dates and booleans (true and false). To see which of
them there are, and to keep them in a binary file:
  plistconv print FILE
  plistconv convert binary1 FILE OUT",
    ),
    (
        Subject::Refusal(Refusal::ReadFailed),
        "a file cannot be opened or read",
        "\
There is no such file, it is a folder, you may not read it, or the device
fails. This says which:
  cat FILE > /dev/null
In an app, which is a folder, the file is mostly Contents/Info.plist. A name
that begins with a dash is given as ./-name, standard input as /dev/stdin.",
    ),
    (
        Subject::Refusal(Refusal::WriteFailed),
        "the output cannot be opened or written",
        "\
OUT is a folder, is in a folder that is not there, you may not write it, the
disk is full, or nothing reads the pipe any more. These say which:
  ls -ld OUT
  df OUT
If the number of bytes is above 0, OUT has only those: delete it.",
    ),
    (
        Subject::Refusal(Refusal::InputTooLarge),
        "the input has more than 4,294,967,295 bytes",
        "\
That is one byte less than 4 GiB. A device without an end, such as /dev/zero,
is refused like this too. Split a large property list into several, or keep
long data in files of their own and write the names of these files.",
    ),
    (
        Subject::Refusal(Refusal::OutOfMemory),
        "out of memory, which says nothing about the input",
        "\
The same file may be accepted where there is more memory. Most files need one
to three times their size, texts of very many short items much more. Raise the
limit, which `ulimit -v` shows, or that of the container, and try again. If a
number of bytes above 0 is named, OUT has only those: delete it.",
    ),
];
