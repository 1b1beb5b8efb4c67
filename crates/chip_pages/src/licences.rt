//! The licences of the program and of the crates that it is linked with.
ghost use Rattle.std.specs.Prelude.{◌≡◌};
ghost use Rattle.chip_pages.specs.Licences.{licences_text};

// The text of the file THIRD-PARTY. `tools/licences --write` copies the file here.
pub const LICENCES: &str = "\
The licences of chipbench

The program, its WebAssembly modules, and the pages and packages that
contain these have code that the Rattle kit ported from the Rust crates named
below, and tables that it made from data of Unicode.

The program for Linux also contains the startup files of the GNU C library and
of GCC. Their licences permit that without conditions: the first by an exception
to the LGPL, the second by the GCC Runtime Library Exception.

chipbench
    Copyright (c) 2026, the authors of chipbench
    MIT licence

arrayvec
    Copyright (c) 2015-2023, Ulrik Sverdrup \"bluss\"
    MIT licence

clap
    Copyright (c) Individual contributors
    MIT licence

fast-float2
    Copyright (c) the authors of fast-float2
    MIT licence

hex
    Copyright (c) 2013-2014, The Rust Project Developers
    Copyright (c) 2015-2020, The rust-hex Developers
    MIT licence

indexmap
    Copyright (c) 2016-2017, the authors of indexmap
    MIT licence

itoa, thiserror
    Copyright (c) David Tolnay
    MIT licence

memchr
    Copyright (c) 2015, Andrew Gallant
    MIT licence

rand_core
    Copyright (c) 2018-2026, The Rand Project Developers
    MIT licence

rand_pcg
    Copyright (c) 2014-2017, Melissa O'Neill and PCG Project contributors
    Copyright (c) 2018, Developers of the Rand project
    MIT licence

smallvec
    Copyright (c) 2018, The Servo Project Developers
    MIT licence

strsim
    Copyright (c) 2015, Danny Guo
    Copyright (c) 2016, Titus Wormer <tituswormer@gmail.com>
    Copyright (c) 2018, Akash Kurdekar
    MIT licence

Unicode-data
    Copyright (c) 1991-2023, Unicode, Inc.
    Unicode licence, version 3

------------------------------------------------------------------------------
MIT licence

Permission is hereby granted, free of charge, to any person obtaining a copy
of this software and associated documentation files (the \"Software\"), to deal
in the Software without restriction, including without limitation the rights
to use, copy, modify, merge, publish, distribute, sublicense, and/or sell
copies of the Software, and to permit persons to whom the Software is
furnished to do so, subject to the following conditions:

The above copyright notice and this permission notice shall be included in all
copies or substantial portions of the Software.

THE SOFTWARE IS PROVIDED \"AS IS\", WITHOUT WARRANTY OF ANY KIND, EXPRESS OR
IMPLIED, INCLUDING BUT NOT LIMITED TO THE WARRANTIES OF MERCHANTABILITY,
FITNESS FOR A PARTICULAR PURPOSE AND NONINFRINGEMENT. IN NO EVENT SHALL THE
AUTHORS OR COPYRIGHT HOLDERS BE LIABLE FOR ANY CLAIM, DAMAGES OR OTHER
LIABILITY, WHETHER IN AN ACTION OF CONTRACT, TORT OR OTHERWISE, ARISING FROM,
OUT OF OR IN CONNECTION WITH THE SOFTWARE OR THE USE OR OTHER DEALINGS IN THE
SOFTWARE.

------------------------------------------------------------------------------
Unicode licence, version 3

UNICODE LICENSE V3

COPYRIGHT AND PERMISSION NOTICE

Copyright (c) 1991-2023 Unicode, Inc.

NOTICE TO USER: Carefully read the following legal agreement. BY
DOWNLOADING, INSTALLING, COPYING OR OTHERWISE USING DATA FILES, AND/OR
SOFTWARE, YOU UNEQUIVOCALLY ACCEPT, AND AGREE TO BE BOUND BY, ALL OF THE
TERMS AND CONDITIONS OF THIS AGREEMENT. IF YOU DO NOT AGREE, DO NOT
DOWNLOAD, INSTALL, COPY, DISTRIBUTE OR USE THE DATA FILES OR SOFTWARE.

Permission is hereby granted, free of charge, to any person obtaining a
copy of data files and any associated documentation (the \"Data Files\") or
software and any associated documentation (the \"Software\") to deal in the
Data Files or Software without restriction, including without limitation
the rights to use, copy, modify, merge, publish, distribute, and/or sell
copies of the Data Files or Software, and to permit persons to whom the
Data Files or Software are furnished to do so, provided that either (a)
this copyright and permission notice appear with all copies of the Data
Files or Software, or (b) this copyright and permission notice appear in
associated Documentation.

THE DATA FILES AND SOFTWARE ARE PROVIDED \"AS IS\", WITHOUT WARRANTY OF ANY
KIND, EXPRESS OR IMPLIED, INCLUDING BUT NOT LIMITED TO THE WARRANTIES OF
MERCHANTABILITY, FITNESS FOR A PARTICULAR PURPOSE AND NONINFRINGEMENT OF
THIRD PARTY RIGHTS.

IN NO EVENT SHALL THE COPYRIGHT HOLDER OR HOLDERS INCLUDED IN THIS NOTICE
BE LIABLE FOR ANY CLAIM, OR ANY SPECIAL INDIRECT OR CONSEQUENTIAL DAMAGES,
OR ANY DAMAGES WHATSOEVER RESULTING FROM LOSS OF USE, DATA OR PROFITS,
WHETHER IN AN ACTION OF CONTRACT, NEGLIGENCE OR OTHER TORTIOUS ACTION,
ARISING OUT OF OR IN CONNECTION WITH THE USE OR PERFORMANCE OF THE DATA
FILES OR SOFTWARE.

Except as contained in this notice, the name of a copyright holder shall
not be used in advertising or otherwise to promote the sale, use or other
dealings in these Data Files or Software without prior written
authorization of the copyright holder.
";

/// Returns the copyright notices and the licences of the program and of everything that is linked
/// into it.
pub fn licence_text() -> &'static str
    ensures { result.now ≡ licences_text }
{
    LICENCES
}
