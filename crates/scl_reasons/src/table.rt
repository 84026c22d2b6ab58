//! The sentences of reasons: each says what its reasons mean, and what one can do.
use crate::explain::Explanation;

/// The sentence for a reason that no compiler of this repository gives: such as a flag of a caller's own table.
pub(crate) const OTHER: &str = "The compiler's table refuses this; run the command as given.";

/// Each reason once. A flag is the reason if its kind is refused with any value, or if it is a driver's flag that can't be passed
/// to the inner command line.
pub(crate) static EXPLANATIONS: &[Explanation] = &[
    explanation! {
        "A word or a value names a response file that was not put in its place; give the file with the request, or write its words out."
        "@"
    },
    explanation! {
        "A flag has an empty value; write the value after it, or leave the flag out."
        "empty value"
    },
    explanation! {
        "The last flag lacks its value; write the value after it."
        "argument parse"
    },
    explanation! {
        "Several inputs are named, and one object is kept for one input; compile each by a command of its own."
        "multiple input files"
    },
    explanation! {
        "No input is named; name the file to compile."
        "no input file"
    },
    explanation! {
        "Neither the input's extension nor a flag says its language; say it by -x, or /Tc or /Tp of cl, or give the file a known extension."
        "unknown source language"
    },
    explanation! {
        "The input has no file name, so the object has none; name a file."
        "invalid input file"
    },
    explanation! {
        "Several architectures are named; compile each by a command of its own, or allow several by the request's line multiarch."
        "multiple different -arch, and SCCACHE_CACHE_MULTIARCH not set"
    },
    explanation! {
        "The path after -fmodule-output is not joined by =; write -fmodule-output=FILE, or only the flag."
        "unknown module output format"
    },
    explanation! {
        "A word that is no option is passed on after -Xclang; write it without -Xclang, or run the command as given."
        "Can't handle Raw arguments with -Xclang"
    },
    explanation! {
        "A flag is passed on after -Xclang that no table has, so nobody knows what it does; leave it out, or run the command as given."
        "Can't handle UnknownFlag arguments with -Xclang"
    },
    explanation! {
        "The object goes to nul, from where nothing can be read back; name a file."
        "output to nul"
    },
    explanation! {
        "A module is asked for without the file that it goes to, or the file without the module; give both flags, or neither."
        "-x c++-module without -fmodule-output= or vice versa"
    },
    explanation! {
        "The input is named as C or C++ by /Tc or /Tp, and as a module by -x; leave one of the two out."
        "-x c++-module with /Tc or /Tp"
    },
    explanation! {
        "Debug information goes to a file that other compilations write too; name one for this object by /Fd, or write /Z7."
        "shared pdb"
    },
    explanation! {
        "The variable CL is not UTF-8; set it to a text, or unset it."
        "CL environment variable value broken"
    },
    explanation! {
        "The variable _CL_ is not UTF-8; set it to a text, or unset it."
        "_CL_ environment variable value broken"
    },
    explanation! {
        "The record names no object, so there is no command; name one by -o."
        "Missing object file output"
    },
    explanation! {
        "The flag asks for text, a list or messages in place of an object file; run the command as given."
        "-##" "-###" "--analyze" "--dry-run" "--preprocess" "-E" "-M" "-MM" "-S" "-V" "-VV"
        "-fmodule-header" "-fsyntax-only" "-n"
    },
    explanation! {
        "The flag makes the compiler write files that the answer does not name, so a cache would lose them; leave it out, or run the command as given."
        "--analyzer-output" "--mil-split" "--save-stats" "--save-temps" "--save-temps=cwd" "--save-temps=obj"
        "--symbol-graph-dir" "-FA" "-FR" "-Fa" "-Fe" "-Fi" "-Fr" "-Ft" "-Fx" "-MJ" "-dependency-dot" "-doc"
        "-dsym-dir" "-dumpdir" "-dynamicdeopt" "-dynamicdeopt:suffix" "-dynamicdeopt:sync" "-experimental:log"
        "-fcallgraph-info" "-fcodegen-data-generate" "-foptimization-record-file" "-frepo"
        "-fsave-optimization-record" "-fstack-usage" "-fthin-link-bitcode" "-ftime-trace" "-ifcOnly" "-ifcOutput"
        "-index-store-path" "-module-dependency-dir" "-save-stats" "-save-temps" "-save-temps=cwd"
        "-save-temps=obj" "/FA" "/FR" "/Fa" "/Fe" "/Fi" "/Fr" "/Ft" "/Fx" "/doc" "/dynamicdeopt"
        "/dynamicdeopt:suffix" "/dynamicdeopt:sync" "/experimental:log" "/ifcOnly" "/ifcOutput"
    },
    explanation! {
        "The flag lets the compiler read files that the answer does not name, so a cache would not see them change; run the command as given."
        "--embed-dir" "-FU" "/FU"
    },
    explanation! {
        "Compiled modules have names that no word says, so a cache would not see them change; name each file by -fmodule-file=, or run the command as given."
        "-experimental:module" "-fbuiltin-module-map" "-fcxx-modules" "-fimplicit-modules" "-fmodules"
        "-fmodules-cache-path" "-fmodules-ts" "-fmodules-user-build-path" "-fprebuilt-implicit-modules"
        "-fprebuilt-module-path" "-ifcMap" "-ifcSearchDir" "-interface" "-internalPartition" "-reference"
        "-stdIfcDir" "/experimental:module" "/ifcMap" "/ifcSearchDir" "/interface" "/internalPartition"
        "/reference" "/stdIfcDir"
    },
    explanation! {
        "The flag uses, makes or takes back a profile in a way that the rules do not follow; run the command as given."
        "--coverage" "-fmemory-profile" "-fmemory-profile=" "-fno-profile-generate" "-fno-profile-instr-generate"
        "-fno-profile-instr-use" "-fno-profile-use" "-fprofile-arcs" "-fprofile-generate"
        "-fprofile-instr-generate" "-fprofile-instr-use" "-fprofile-use" "-ftest-coverage"
    },
    explanation! {
        "The flag names a file of further words that the rules do not read; write its words out."
        "--config" "--option-file" "-@" "-f"
    },
    explanation! {
        "A plugin is code of its own that changes the object and is not hashed with the command; run the command as given."
        "-fplugin"
    },
    explanation! {
        "The input is standard input, which can't be read once to be hashed and once more to be compiled; write it to a file and name that."
        "-"
    },
    explanation! {
        "The flag says how preprocessed text is printed, which the runs of the preprocessor say themselves; leave it out, or run the command as given."
        "-P"
    },
    explanation! {
        "The flag moves the directory that paths start from; change the directory before the compiler runs, and leave the flag out."
        "-working-directory"
    },
    explanation! {
        "The language is not known, or can't be said so here: clang-cl takes only c++-module, and cl none; name a known one, or leave the flag out."
        "-x" "/x"
    },
    explanation! {
        "Only clang-cl has module files that a flag names, and clang has them without -Xclang; name the file, or run the command as given."
        "-fmodule-file" "-fmodule-output" "/fmodule-file" "/fmodule-output"
    },
    explanation! {
        "The flag is the driver's and can't be passed on to the compiler proper; write it without -Xclang or -clang: before it."
        "--precompile" "--precompile-reduced-bmi" "-Werror=pedantic" "-Wpedantic" "-Xclang" "-c"
        "-fintegrated-as" "-fno-integrated-as" "-gsplit-dwarf" "-integrated-as" "-no-integrated-as" "-o"
        "-pedantic" "-pedantic-errors" "-std"
    },
    explanation! {
        "A precompiled header is made or used, and a cache keeps none; leave the flag out, or run the command as given."
        "-Fp" "-Yc" "/Fp" "/Yc"
    },
    explanation! {
        "Minimal rebuild lets the compiler decide what is compiled; switch it off by /Gm-."
        "-Gm" "/Gm"
    },
];
