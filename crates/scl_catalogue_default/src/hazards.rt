//! The text of catalogue/hazards.txt; `catalogue/build` writes it.

/// The text.
pub(crate) static HAZARDS: &'static str =
    r##"# What gcc, clang and clang-cl do otherwise with the built command than with the given one: catalogue/README.md says how a line is read.

group INPUT: raw * ! --
group LANGUAGE: kind language
group LONG_HEADER: unknown --language=c-header --language=c++-header --language=objective-c-header --language=objective-c++-header
group LONG_OUTPUT: unknown --output --output=*
group OUTPUT: kind output | unknown --output --output=*
group TEXT: unknown --dependencies --preprocess --user-dependencies
group ASSEMBLY: unknown --assemble -S
group ONE_OUTPUT: kind split-dwarf | unknown --dependencies --preprocess --user-dependencies | unknown --assemble -S
group SPLIT: kind split-dwarf
group DEBUG: unknown -g* --debug* ! -grecord* -gno-* -g0*
group LEVEL_OF_MACROS: unknown -g3 -ggdb3 -gstabs3 -gvms3 -gxcoff3 --debug=3
group LEVEL_BELOW: unknown -g0 -g1 -g2 -ggdb0 -ggdb1 -ggdb2 -gstabs0 -gstabs1 -gstabs2 -gvms0 -gvms1 -gvms2 -gxcoff0 -gxcoff1 -gxcoff2 --debug=0 --debug=1 --debug=2
group RECORDING: kind split-dwarf | unknown -g* --debug* -frecord-gcc-switches* -fverbose-asm*
group AST: kind module-only-flag | unknown -emit-ast
group EMIT_PCH: flag -emit-pch
group STANDARD: kind standard | unknown --std=* | unknown -ansi --ansi
group KNOWN_STANDARD: kind standard & value * ! \e | unknown --std=* ! --std= | unknown -ansi --ansi
group NO_STANDARD: kind standard & delimiter-dropped
group WITHOUT_TRIGRAPHS: kind standard & value gnu* | kind standard & value c++17 c++1z c++20 c++2a c++23 c++2b c++26 c++2c \e | unknown --std=gnu* | unknown --std= --std=c++17 --std=c++1z --std=c++20 --std=c++2a --std=c++23 --std=c++2b --std=c++26 --std=c++2c
group C23: kind standard & value c2x c23 c2y iso9899:2024 | unknown --std=c2x --std=c23 --std=c2y --std=iso9899:2024
group TRIGRAPHS: flag -trigraphs
group COLOR: kind diagnostics-color diagnostics-color-flag no-diagnostics-color-flag
group COLOR_KEPT: kind diagnostics-color & value \e always | kind diagnostics-color-flag no-diagnostics-color-flag
group COLOR_NEVER: kind diagnostics-color & value never
group NEED: kind need-dep-target
group TARGET: kind dep-target
group DEPENDENCY_FILE: kind dep-argument-path
group TARGETS: kind dep-target | unknown -MT* -MQ*
group HANDED_RULES: flag -Wp -Xpreprocessor & part -MD -MMD
group OBJC_FLAG: unknown -ObjC -ObjC++
group HANDED_FILE: flag -Wp -Xpreprocessor & part -MD -MMD -MF
group HANDED_TARGET: flag -Wp -Xpreprocessor & part -MT -MQ
group LONG_RULES: unknown --write-* --dependencies* --user-dependencies*
group DEPENDENCY_RULES: flag -MD -MMD
group ASKED_DEPENDENCIES: unknown --write-* --dependencies* --user-dependencies* | flag -Wp -Xpreprocessor & part -M -MM -MD -MMD
group USING_TARGET: unknown --write-* --dependencies* --user-dependencies* | flag -MD -MMD | flag -Wp & part -M -MM -MD -MMD
group OTHER_DEPENDENCIES: unknown --write-* --dependencies* --user-dependencies* | flag -Wp -Xpreprocessor & part -M*
group INNER_DEPENDENCIES: kind need-dep-target dep-argument-path
group DIAGNOSTICS_FILE: flag --serialize-diagnostics
group UNUSED: unknown -L* -l* | flag --param -A -G -L -Xlinker -b -fdebug-compilation-dir -install_name -u -z
group FATAL: unknown -Werror
group NOT_FATAL: unknown -Wno-error
group SILENT: unknown -w --no-warnings
group HEADER_FATAL: unknown -Werror=invalid-pch
group HEADER_NOT_FATAL: unknown -Wno-error=invalid-pch
group HEADER_ON: unknown -Winvalid-pch -Werror=invalid-pch
group HEADER_OFF: unknown -Wno-invalid-pch
group DEPRECATED_FATAL: unknown -Werror=deprecated
group DEPRECATED_NOT_FATAL: unknown -Wno-error=deprecated
group DEPRECATED_OFF: unknown -Wno-deprecated -Wno-everything
group DEPRECATED_ON: unknown -Wdeprecated -Weverything -Werror=deprecated
group SILENT_UNUSED: unknown -w --no-warnings -Qunused-arguments
group UNUSED_FATAL: unknown -Werror=unused-command-line-argument
group UNUSED_NOT_FATAL: unknown -Wno-error=unused-command-line-argument
group UNUSED_OFF: unknown -Wno-unused-command-line-argument -Wno-everything
group UNUSED_ON: unknown -Wunused-command-line-argument -Weverything -Werror=unused-command-line-argument
group UNUSED_BLOCK: unknown --start-no-unused-arguments --end-no-unused-arguments
group UNKNOWN_FATAL: unknown -Werror=unknown-warning-option
group UNKNOWN_NOT_FATAL: unknown -Wno-error=unknown-warning-option
group UNKNOWN_OFF: unknown -Wno-unknown-warning-option -Wno-everything
group UNKNOWN_ON: unknown -Wunknown-warning-option -Weverything -Werror=unknown-warning-option
group CL_OUTPUT: kind output
group CL_JOINED_OUTPUT: unknown -o* ! -openmp -openmp- -openmp:experimental
group CL_FATAL: flag -WX /WX | unknown -Werror -Werror=unknown-argument
group CL_DEBUG: flag -Z7 /Z7 -Zi /Zi -ZI /ZI | unknown -g*
group CL_DEBUG_14: flag -Z7 /Z7 -Zi /Zi -ZI /ZI | unknown -g* ! -g -g0 -g1 -g2 -g3 -ggdb -ggdb0 -ggdb3 -gdwarf-2 -gdwarf-3 -gdwarf-4 -gdwarf-5 -gmodules
group WINDOWS_TARGET: unknown *windows* *msvc* *win32* *mingw* *cygwin* *uefi* | flag -target --target & value *windows* *msvc* *win32* *mingw* *cygwin* *uefi*
group CODEVIEW_TARGET: unknown *windows* *msvc* *win32* *mingw* *cygwin* *uefi* ! *-w64-mingw32 *-windows-gnu *-pc-cygwin | flag -target --target & value *windows* *msvc* *win32* *mingw* *cygwin* *uefi* ! *-w64-mingw32 *-windows-gnu *-pc-cygwin
group CL_PUT_FIRST: flag -F -I -MD -MF -MMD -MP -MQ -MT -fno-working-directory -fworking-directory -idirafter -iframework -imacros -imultilib -include -include-pch -iprefix -iquote -isysroot -isystem -iwithprefix -iwithprefixbefore -nostdinc -nostdinc++ -remap -trigraphs
group CL_LEFT_BEHIND: unknown * | flag * ! -F -I -MD -MF -MMD -MP -MQ -MT -fno-working-directory -fworking-directory -idirafter -iframework -imacros -imultilib -include -include-pch -iprefix -iquote -isysroot -isystem -iwithprefix -iwithprefixbefore -nostdinc -nostdinc++ -remap -trigraphs
group CL_TAKING_NEXT: unknown -diasdkdir -vctoolsdir -vctoolsversion -winsdkdir -winsdkversion -winsysroot
group CL_CUT_SHORT: flag -isystem & joined & value -after* | flag -iframework & joined & value withsysroot*
group CL_PREPROCESSOR: flag -D /D -FI /FI -I /I -U /U -imsvc /imsvc
group CL_SILENT: flag -W0 /W0 -w /w | unknown -Qunused-arguments
group CL_DROPPED: flag -MP /MP -sourceDependencies /sourceDependencies

hazard response-file-split-otherwise object
  says The compiler splits the text of a response file into other words.
  gcc, clang, clang-cl: split-otherwise

hazard response-file-mark failure
  says Clang drops the byte order mark of a response file, and the built command keeps it in its first word.
  clang: file \xef\xbb\xbf*

hazard response-file-nul failure
  says A word of a response file holds a byte 0, which no process can be given.
  gcc, clang: file *\x00*
  clang-cl, cl, diab, tasking: word *\x00*

hazard at-word object
  says The compiler reads the file that a word after @ names.
  clang, clang-cl: any raw @*

hazard object-named-at object
  says The object's name begins with @, so the compiler takes it for a response file.
  gcc, clang: object @* ; not any kind output

hazard split-dwarf-header-made object
  says The header or module holds the macro that is added for split debug information.
  gcc, clang: any SPLIT ; language c-header c++-header header objective-c-header objective-c++-header
  clang: any SPLIT ; any AST
  clang: any SPLIT ; inner any EMIT_PCH
  clang since 16: any SPLIT ; any kind clang-module-output ; language c++-module

hazard split-dwarf-header-used failure
  says The macro that is added for split debug information differs from that of the precompiled header, which is not taken.
  gcc, clang: any SPLIT ; preprocessed ; any flag -include-pch
  gcc, clang: any SPLIT ; preprocessed ; inner any flag -include-pch
  gcc: any SPLIT ; preprocessed ; precompiled-header ; last HEADER_FATAL > HEADER_NOT_FATAL ; last HEADER_ON > HEADER_OFF ; not any SILENT
  gcc: any SPLIT ; preprocessed ; precompiled-header ; last FATAL > NOT_FATAL ; last HEADER_ON > HEADER_OFF ; not any HEADER_FATAL ; not any HEADER_NOT_FATAL ; not any SILENT

hazard split-dwarf-header-perhaps-used failure
  says A precompiled header beside the included file is not taken, since the macro that is added for split debug information differs.
  gcc, clang: any SPLIT ; preprocessed ; precompiled-header

hazard split-dwarf-macro-recorded object
  says The debug information holds the macro that is added for split debug information.
  gcc: any SPLIT ; preprocessed ; last LEVEL_OF_MACROS > LEVEL_BELOW
  clang: any SPLIT ; preprocessed ; any unknown -g* --debug* ; last unknown -fdebug-macro > unknown -fno-debug-macro

hazard split-dwarf-macro-written side-file
  says A file of macros holds the one that is added for split debug information.
  gcc: any SPLIT ; preprocessed ; any unknown -fdump-go-spec*
  gcc, clang: any SPLIT ; preprocessed ; any unknown --preprocess ; any unknown -dM -dD -dN --dump=M --dump=D --dump=N

hazard command-recorded object
  says The object records the built command.
  clang: last unknown -frecord-command-line -frecord-gcc-switches > unknown -fno-record-command-line -fno-record-gcc-switches ; not language assembler assembler-with-cpp
  clang: any DEBUG ; last unknown -grecord-command-line -grecord-gcc-switches > unknown -gno-record-command-line -gno-record-gcc-switches ; not language assembler assembler-with-cpp

hazard order-of-recorded-words object
  says The object or the assembly records the words in the built order.
  gcc: any RECORDING ; before STANDARD > TRIGRAPHS ; not language assembler assembler-with-cpp
  gcc: any RECORDING ; before unknown -f* ! -fdump-* -frecord-gcc-switches* | flag -f* ! -fdiagnostics-color* -fworking-directory* -fno-working-directory* > flag -fworking-directory -fno-working-directory ; not language assembler assembler-with-cpp

hazard command-in-bitcode object
  says The object's bitcode section holds the built command.
  clang: any unknown -fembed-bitcode-marker -fembed-bitcode=marker ; not language assembler assembler-with-cpp

hazard command-in-codeview object
  says The debug information of Windows holds the built command.
  clang since 14: any unknown -g* --debug* ! -g0* | flag -gcodeview ; any CODEVIEW_TARGET ; not any unknown -gdwarf -gdwarf-2 -gdwarf-3 -gdwarf-4 -gdwarf-5 ; not last unknown -gno-codeview-command-line > unknown -gcodeview-command-line
  clang since 14: any flag -gcodeview | unknown -gcodeview* ; any WINDOWS_TARGET ; not last unknown -gno-codeview-command-line > unknown -gcodeview-command-line
  clang since 14: inner any flag -gcodeview ; any WINDOWS_TARGET
  clang-cl since 14 until 15: any CL_DEBUG_14 ; inner any flag -B -D -F -I -U -u -z & apart
  clang-cl since 14 until 15: any CL_DEBUG_14 ; before flag -external:I /external:I & joined > CL_PREPROCESSOR
  clang-cl since 14 until 15: any CL_DEBUG_14 ; inner any unknown -grecord-command-line -grecord-gcc-switches
  clang-cl since 14 until 15: any CL_DEBUG_14 ; any flag -Xclang ; inner before CL_LEFT_BEHIND > CL_PUT_FIRST
  clang-cl since 15: any CL_DEBUG ; inner any flag -B -D -F -I -U -u -z & apart
  clang-cl since 15: any CL_DEBUG ; before flag -external:I /external:I & joined > CL_PREPROCESSOR
  clang-cl since 15: any CL_DEBUG ; inner any unknown -grecord-command-line -grecord-gcc-switches
  clang-cl since 15: any CL_DEBUG ; any flag -Xclang ; inner before CL_LEFT_BEHIND > CL_PUT_FIRST

hazard color-stored object
  says The precompiled header, module or tree stores the colour option that is added.
  gcc, clang: language c-header c++-header header objective-c-header objective-c++-header ; not last COLOR_KEPT > COLOR
  gcc, clang: any LONG_HEADER ; not last COLOR_KEPT > COLOR
  clang until 19: any kind module-only-flag ; not last COLOR_KEPT > COLOR ; not language assembler assembler-with-cpp ; not language c objective-c
  clang since 16 until 19: any kind clang-module-output ; not last COLOR_KEPT > COLOR ; language c++-module
  clang: any unknown -emit-ast ; not last COLOR_KEPT > COLOR ; not language assembler assembler-with-cpp
  clang: inner any EMIT_PCH ; not last COLOR_KEPT > COLOR

hazard text-in-object object
  says Preprocessed text or dependencies go into the object's file.
  gcc, clang: any TEXT ; not any OUTPUT ; not language assembler
  gcc: any TEXT ; any OUTPUT ; any NEED
  clang: any unknown --dependencies --user-dependencies ; any NEED ; not any DEPENDENCY_RULES ; not language assembler

hazard assembly-in-object object
  says Assembly text goes into the object's file.
  clang: any ASSEMBLY ; not any OUTPUT
  gcc: any ASSEMBLY ; not any OUTPUT ; not language assembler assembler-with-cpp

hazard other-output-in-object object
  says Another output than an object goes into the object's file.
  clang: any unknown --migrate -emit-ast -emit-llvm -extract-api -module-file-info -rewrite-legacy-objc -rewrite-objc ; not any OUTPUT ; not language assembler assembler-with-cpp
  clang: any kind module-only-flag ; not any OUTPUT
  clang: language assembler-with-cpp ; any unknown --migrate -emit-ast -extract-api -frewrite-imports -frewrite-includes -module-file-info -rewrite-legacy-objc -rewrite-objc | flag -verify-pch ; not any OUTPUT

hazard header-in-object object
  says The precompiled header goes into the object's file.
  gcc, clang: language c-header c++-header header objective-c-header objective-c++-header ; not any OUTPUT
  gcc, clang: any LONG_HEADER ; not any OUTPUT

hazard hidden-input object
  says The input's name begins with its only dot, and the compiler names the object otherwise.
  clang: hidden-input ; not any OUTPUT
  gcc: hidden-input ; any NEED ; not any OUTPUT

hazard order-of-outputs object
  says Another of the named outputs is written.
  gcc, clang: any LONG_OUTPUT ; last kind output > LONG_OUTPUT
  clang-cl: before CL_JOINED_OUTPUT > CL_OUTPUT

hazard output-elsewhere object
  says The compiler writes another file than one that the record names, or none.
  gcc, clang: last LONG_OUTPUT > kind output
  gcc: any kind coverage test-coverage ; any unknown -dumpbase --dumpbase -dumpdir --dumpdir
  gcc: any unknown -### --help --version --target-help -dumpfullversion -dumpmachine -dumpspecs -dumpversion -print-* --print-*
  gcc: language rs ; not any LANGUAGE
  clang: any TEXT ; language assembler
  clang: any unknown -emit-ast ; language assembler
  clang: any unknown -### -help --help --help-hidden --version -dumpmachine -dumpversion -ccc-print-* -print-* --print-* ! -print-ivar-layout -print-rocm-search-dirs --print-rocm-search-dirs
  clang since 15: any unknown -fdriver-only
  clang since 16: last kind clang-module-output & value \e > kind clang-module-output & value * ! \e ; language c++-module
  clang since 16: any kind clang-module-output ; not language c++-module
  clang-cl: last CL_JOINED_OUTPUT > CL_OUTPUT
  clang-cl: any unknown -### -help --version --analyze
  clang-cl: language c-header c++-header header objective-c-header objective-c++-header ; not any flag -TC /TC -TP /TP
  clang-cl: any flag -clang: /clang: & value --output --output=* --dependencies --preprocess --user-dependencies --assemble -S
  clang-cl: any flag -clang: /clang: & value --migrate -emit-ast -emit-llvm -extract-api -module-file-info -rewrite-legacy-objc -rewrite-objc
  clang-cl: any flag -clang: /clang: & value -### -help --help --help-hidden --version -dumpmachine -dumpversion -ccc-print-* -print-* --print-* ! -print-ivar-layout -print-rocm-search-dirs --print-rocm-search-dirs
  clang-cl: language assembler-with-cpp ; any flag -clang: /clang: & value -frewrite-imports -frewrite-includes -verify-pch
  clang-cl: object \e
  clang-cl since 15: any kind output & value :*
  clang-cl since 15: any unknown -fdriver-only

hazard output-is-no-file object
  says An output goes to standard output or a device, and is no file that can be kept.
  gcc, clang: object - /dev/* /proc/self/fd/* ! /dev/shm/*
  gcc, clang: any kind dep-argument-path & value - /dev/* /proc/self/fd/* ! /dev/shm/*
  gcc, clang: any unknown -MF- -MF/dev/* --output=- --output=/dev/* ! -MF/dev/shm/* --output=/dev/shm/*

hazard dependency-names-of-output side-file
  says The dependency file and its target are not named after the output of the long spelling.
  clang: preprocessed ; any LONG_OUTPUT ; any NEED ; not any TARGET
  clang: preprocessed ; any LONG_OUTPUT ; any NEED ; not any DEPENDENCY_FILE

hazard several-outputs failure
  says Gcc stops at several outputs, and the built command names another number of them.
  gcc: any LONG_OUTPUT ; any ONE_OUTPUT
  gcc: any LONG_OUTPUT ; preprocessed ; any kind need-dep-target | unknown --write-*
  gcc: two kind output ; any ONE_OUTPUT
  gcc: two kind output ; preprocessed ; any flag -MD -MMD | unknown --write-*

hazard several-device-outputs object
  says The compilation has outputs for devices, which are named or marked otherwise.
  clang: any unknown -fopenmp-targets=*
  clang: language cuda hip ; any unknown --cuda-device-only* --offload-device-only* -cuid=* -fuse-cuid=*
  clang: any unknown --cuda-gpu-arch=* --offload-arch=* ; not language cuda hip ; any unknown -fopenmp* -fsycl*
  clang: language cuda hip ; last unknown -fcuda-rdc -fgpu-rdc > unknown -fno-cuda-rdc -fno-gpu-rdc

hazard output-is-another-flag object
  says Clang knows the word as a flag of its own, and the built command takes it for an output.
  clang: last flag -o & joined & value bject* > kind output
  clang: any flag -o & joined & value bjcmt-*

hazard order-of-languages object
  says The input is compiled in another language.
  gcc, clang: other-language
  clang: before INPUT > LANGUAGE ; extension hp HPP h++ tcc sx ; not before LANGUAGE > INPUT
  gcc: before INPUT > unknown --language

hazard language-unknown failure
  says The compiler does not know this language.
  gcc: language cuda c++-module hip ; not before LANGUAGE > INPUT
  gcc: language cuda c++-module hip ; before INPUT > LANGUAGE
  gcc: language rs ; before kind language & value rs > INPUT
  clang: any kind language & value rs

hazard extension-unknown object
  says Clang does not know the extension and leaves the file to the linker; the built command compiles it.
  clang: extension hp HPP h++ tcc sx ; not any LANGUAGE

hazard driver-mode object
  says Clang works as another driver, by whose rules the line was not read.
  clang: plusplus ; any unknown --driver-mode=* ! --driver-mode=g++* --driver-mode=gcc
  clang: plusplus ; any unknown --driver-mode=gcc ; extension c h i ; not before LANGUAGE > INPUT
  clang: any unknown --driver-mode=* ! --driver-mode=g++ --driver-mode=gcc* ; not plusplus
  clang: any unknown --driver-mode=g++ ; extension c h i ; not before LANGUAGE > INPUT ; not plusplus

hazard objective-c-flag object
  says The language that the built command states wins over the flag.
  clang: any unknown -ObjC ; not before LANGUAGE > INPUT ; not language objective-c
  clang: any unknown -ObjC++ ; not before LANGUAGE > INPUT ; not language objective-c++
  clang: any OBJC_FLAG ; not before LANGUAGE > INPUT ; last UNUSED_FATAL > UNUSED_NOT_FATAL ; not any SILENT_UNUSED ; not last UNUSED_OFF > UNUSED_ON
  clang: any OBJC_FLAG ; not before LANGUAGE > INPUT ; last FATAL > NOT_FATAL ; not any SILENT_UNUSED ; not last UNUSED_OFF > UNUSED_ON ; not any UNUSED_FATAL ; not any UNUSED_NOT_FATAL

hazard c-as-cxx failure
  says The C++ driver of clang stops at a file of C; the built command states C++ and compiles.
  clang: plusplus ; extension c ; last DEPRECATED_FATAL > DEPRECATED_NOT_FATAL ; not any LANGUAGE ; not any SILENT ; not last DEPRECATED_OFF > DEPRECATED_ON
  clang: plusplus ; extension c ; last FATAL > NOT_FATAL ; not any LANGUAGE ; not any SILENT ; not last DEPRECATED_OFF > DEPRECATED_ON ; not any DEPRECATED_FATAL ; not any DEPRECATED_NOT_FATAL

hazard assembler-of-darwin object
  says Clang preprocesses assembler for Darwin, unless the language is stated as in the built command.
  clang: language assembler ; any unknown *darwin* *apple* *macos* | flag -target --target & value *darwin* *apple* *macos* ; not any LANGUAGE
  clang: language assembler ; apple ; not any LANGUAGE

hazard flag-takes-next-word object
  says The compiler takes the next word as the flag's value, which is another word in the built command.
  gcc, clang: unfollowed unknown --assert --define-macro --entry --for-assembler --for-linker --force-link --imacros --include --include-directory* --include-prefix --include-with-prefix* --language --library-directory --output --prefix --specs --undefine-macro -T -Tbss -Tdata -Ttext -e -l -specs ! *=* > option * & stays
  gcc: unfollowed unknown --dump --dumpbase --dumpbase-ext --dumpdir --output-pch= -Hd -Hf -J -R -Xf -auxbase -d -dumpbase -dumpbase-ext -dumpdir -fintrinsic-modules-path -gnatO -h -imultiarch -wrapper > option * & stays
  clang: unfollowed unknown --analyzer-output --classpath --config -Xanalyzer -Xarch_* -Xcuda-* -Xopenmp-target* -Xparser -allowable_client -arcmt-migrate-report-output -bundle_loader -c-isystem -ccc-arcmt-migrate -ccc-gcc-name -ccc-install-dir -ccc-objcmt-migrate -client_name -compatibility_version -current_version -cxx-isystem -dylib_file -dylinker_install_name -exported_symbols_list -fexec-charset -filelist -force_load -framework -ftrapv-handler -fxray-instruction-threshold -gen-cdb-fragment-path -iframeworkwithsysroot -image_base -init -iwithsysroot -meabi -mthread-model -multiply_defined* -pagezero_size -read_only_relocs -reexport_* -resource-dir -rpath -sect* -seg_addr_table* -segaddr -segcreate -segprot -segs_read_* -serialize-diagnostics -stdlib++-isystem -sub_* -umbrella -unexported_symbols_list -weak_* ! -Xarch_host > option * & stays
  clang until 16: unfollowed unknown -fxray-instruction-threshold= -fxray-instrumentation-bundle= -fxray-modes= > option * & stays
  clang since 15: unfollowed unknown -Xoffload-linker* -darwin-target-variant -darwin-target-variant-triple > option * & stays
  clang since 17: unfollowed unknown -fexperimental-openacc-macro-override -hlsl-entry -iapinotes-modules -validator-version > option * & stays
  clang: any flag -u & joined & value ndefined mbrella nexported_symbols_list
  clang-cl: any unknown -link
  clang-cl: unfollowed CL_TAKING_NEXT > option * & stays
  clang-cl since 15: unfollowed unknown -darwin-target-variant -darwin-target-variant-triple > option * & stays

hazard host-flag-takes-next-word object
  says Clang takes the word after -Xarch_host as a flag for the host, and the built command has another word there.
  clang: unfollowed unknown -Xarch_host > option * & stays | flag * ! -o -x & joined
  clang until 22: unfollowed unknown -Xarch_host > option * & stays ; before unknown -Xarch_host > unknown -O*
  clang: unfollowed unknown -Xarch_host > option * & stays ; before unknown -Xarch_host > unknown * ! -O* -W* -f* -g* -march=* -pthread -w | flag --param --target -A -B -G -L -V -Xassembler -Xclang -Xlinker -add-plugin -arch -aux-info -b -fdebug-compilation-dir -gcc-toolchain -install_name -load -mllvm -mmlir -target -u -z

hazard flag-cut-short failure
  says Clang knows a longer flag than the rules, which cut off a shorter one.
  clang: any flag -isystem & joined & value -after* | flag -iframework & joined & value withsysroot*
  clang-cl: inner any CL_CUT_SHORT

hazard value-printed-joined failure
  says The built command joins a value that clang takes as a word of its own.
  clang: any flag -z & apart

hazard value-printed-apart failure
  says The built command takes a value apart that clang does not take so.
  clang: any flag -fplugin | flag -imultilib -include-pch & joined
  clang-cl: inner any flag -fplugin

hazard delimiter-dropped failure
  says The built command lacks the delimiter after a flag with an empty value.
  clang: any flag * ! -Wp -std -fdiagnostics-color & delimiter-dropped
  clang, clang-cl: inner any flag * ! -Wp -fdiagnostics-color & delimiter-dropped
  clang: before NO_STANDARD > KNOWN_STANDARD
  clang: any NO_STANDARD ; language assembler
  gcc: language assembler ; word -Wp,
  clang: last UNKNOWN_FATAL > UNKNOWN_NOT_FATAL ; word -Wp, ; not any SILENT ; not last UNKNOWN_OFF > UNKNOWN_ON
  clang: last FATAL > NOT_FATAL ; word -Wp, ; not any SILENT ; not last UNKNOWN_OFF > UNKNOWN_ON ; not any UNKNOWN_FATAL ; not any UNKNOWN_NOT_FATAL
  clang-cl: any flag * & delimiter-dropped ; any CL_FATAL

hazard order-of-searched-folders object
  says Folders are searched for headers, or macros are defined, in another order.
  gcc, clang: before unknown --include-barrier --include-directory --include-directory=* --include-with-prefix-before --include-with-prefix-before=* > flag -I -iwithprefixbefore -F
  gcc, clang: before unknown --include-directory-after --include-directory-after=* --include-with-prefix --include-with-prefix=* --include-with-prefix-after --include-with-prefix-after=* > flag -idirafter -iwithprefix ; not language assembler
  clang: before unknown -iwithsysroot* > flag -isystem -iframework ; not language assembler
  clang since 16: any flag -Xclang ; any unknown -Xclang=*
  clang-cl: inner before unknown --include-barrier --include-directory --include-directory=* --include-with-prefix-before --include-with-prefix-before=* > flag -I -iwithprefixbefore -F
  clang-cl: inner before unknown --include-directory-after --include-directory-after=* --include-with-prefix --include-with-prefix=* --include-with-prefix-after --include-with-prefix-after=* > flag -idirafter -iwithprefix
  clang-cl: inner before unknown -iwithsysroot* > flag -isystem -iframework
  clang-cl since 16: any flag -Xclang ; any unknown -Xclang=*

hazard order-of-included-files object
  says Files are included in another order.
  gcc, clang: before unknown --include --include=* > flag -include -include-pch
  gcc, clang: before unknown --imacros --imacros=* > flag -imacros
  clang-cl: inner before unknown --include --include=* > flag -include -include-pch
  clang-cl: inner before unknown --imacros --imacros=* > flag -imacros

hazard order-of-prefixes object
  says A prefix of folders applies to others.
  gcc, clang: before unknown --include-prefix --include-prefix=* > flag -iwithprefix -iwithprefixbefore -iprefix
  gcc, clang: before unknown --include-with-prefix* > flag -iprefix
  clang-cl: inner before unknown --include-prefix --include-prefix=* > flag -iwithprefix -iwithprefixbefore -iprefix

hazard order-of-standard-libraries object
  says Another standard library is taken.
  clang: before unknown --stdlib=* > flag -stdlib

hazard trigraphs-before-standard object
  says The standard comes last in the built command and turns trigraphs off.
  gcc, clang: before STANDARD > TRIGRAPHS ; last WITHOUT_TRIGRAPHS > STANDARD
  gcc since 13, clang since 17: before STANDARD > TRIGRAPHS ; last C23 > STANDARD
  clang: before unknown -fno-trigraphs > TRIGRAPHS
  clang-cl: inner before STANDARD > TRIGRAPHS ; inner last WITHOUT_TRIGRAPHS > STANDARD

hazard two-targets side-file
  says The dependency file names only the last target.
  gcc, clang: preprocessed ; any NEED ; two TARGET

hazard quoted-target side-file
  says The target in the dependency file is not quoted.
  gcc, clang: preprocessed ; any NEED ; any DEPENDENCY_RULES ; object *\x20* *\x09* *$* *#* ; not any TARGET
  gcc, clang: preprocessed ; any NEED ; any OTHER_DEPENDENCIES ; object *\x20* *\x09* *$* *#* ; not any TARGET
  gcc, clang: preprocessed ; any NEED ; inner any INNER_DEPENDENCIES ; object *\x20* *\x09* *$* *#* ; not any TARGET

hazard target-unasked side-file
  says The target is dropped where no flag of the rules asks for one.
  gcc: preprocessed ; any TARGET ; not any NEED ; other-target
  gcc: preprocessed ; any TARGET ; not any NEED ; not any ASKED_DEPENDENCIES
  gcc: preprocessed ; any TARGET ; not any NEED ; any HANDED_RULES ; renamed-object
  clang: preprocessed ; any TARGET ; any ASKED_DEPENDENCIES ; not any NEED ; other-target
  gcc, clang: preprocessed ; any TARGET ; any ASKED_DEPENDENCIES ; not any NEED ; two TARGETS
  gcc, clang: preprocessed ; any TARGET ; any ASKED_DEPENDENCIES ; not any NEED ; object *\x20* *\x09* *$* *#*
  clang: preprocessed ; any TARGET ; inner any INNER_DEPENDENCIES ; not any NEED
  clang: any TARGET ; last UNUSED_FATAL > UNUSED_NOT_FATAL ; not any NEED ; not any SILENT_UNUSED ; not last UNUSED_OFF > UNUSED_ON
  clang: any TARGET ; last FATAL > NOT_FATAL ; not any NEED ; not any SILENT_UNUSED ; not last UNUSED_OFF > UNUSED_ON ; not any UNUSED_FATAL ; not any UNUSED_NOT_FATAL

hazard target-handed-on side-file
  says The dependency file names the object beside the target that is passed on to the preprocessor.
  gcc: preprocessed ; any NEED ; any HANDED_TARGET ; not any TARGET
  gcc: preprocessed ; any LONG_RULES ; any HANDED_TARGET ; not any OUTPUT ; not any TARGET

hazard joined-target side-file
  says The dependency file names the object beside a target that is joined to its flag.
  gcc: preprocessed ; any NEED ; any unknown -MT* -MQ* ; other-target
  gcc: preprocessed ; any NEED ; any unknown -MQ* ; object *\x20* *\x09* *$* *#*

hazard joined-dependency-file side-file
  says Another of the named dependency files is written.
  gcc: before unknown -MF* > flag -MF

hazard dependency-file-handed-on side-file
  says Another dependency file is written than the one that is passed on to the preprocessor.
  gcc: preprocessed ; any NEED ; unfollowed flag -Xpreprocessor & value -MD -MMD > flag -Xpreprocessor ; not any OUTPUT ; not any TARGET
  gcc: preprocessed ; any NEED ; any flag -Wp & value -MD -MMD *,-MD *,-MMD ; not any OUTPUT ; not any TARGET
  clang: preprocessed ; any HANDED_FILE ; any NEED ; not any DEPENDENCY_FILE
  clang: preprocessed ; last HANDED_FILE > DEPENDENCY_FILE ; any DEPENDENCY_FILE

hazard dependency-names-of-input run
  says The run of the preprocessor names the target after the input, so the run leaves another dependency file.
  clang: preprocessed ; renamed-object ; any HANDED_RULES ; not any HANDED_TARGET

hazard dependency-names-of-dumps side-file
  says The dependency file is named as dumps are, and the built command names it after the object.
  gcc: preprocessed ; any unknown -dumpbase --dumpbase -dumpdir --dumpdir ; any unknown --write-* | flag -MD -MMD ; not any OUTPUT ; not any kind dep-argument-path | unknown -MF*

hazard hidden-object side-file
  says The object's name begins with its only dot, and the compiler names the dependency file otherwise.
  gcc, clang: preprocessed ; any NEED ; hidden-object ; not any DEPENDENCY_FILE

hazard color-value-unknown failure
  says The compiler stops at the colour's value, which the built command lacks.
  gcc: any kind diagnostics-color & value * ! \e always never auto
  gcc: word -fdiagnostics-color=
  clang: any kind diagnostics-color & value * ! \e always never auto ; not language assembler
  clang: word -fdiagnostics-color= ; not language assembler

hazard unused-words-for-assembler failure
  says Clang stops at the added words, which it does not use for assembler.
  clang: language assembler ; last UNUSED_FATAL > UNUSED_NOT_FATAL ; not any SILENT_UNUSED ; not last UNUSED_OFF > UNUSED_ON
  clang: language assembler ; last FATAL > NOT_FATAL ; not any SILENT_UNUSED ; not last UNUSED_OFF > UNUSED_ON ; not any UNUSED_FATAL ; not any UNUSED_NOT_FATAL

hazard unused-dependency-words failure
  says Clang stops at the added words about dependencies, since no dependency file is asked for.
  clang: preprocessed ; any NEED ; last UNUSED_FATAL > UNUSED_NOT_FATAL ; not any DEPENDENCY_RULES ; not any SILENT_UNUSED ; not last UNUSED_OFF > UNUSED_ON
  clang: preprocessed ; any NEED ; last FATAL > NOT_FATAL ; not any DEPENDENCY_RULES ; not any SILENT_UNUSED ; not last UNUSED_OFF > UNUSED_ON ; not any UNUSED_FATAL ; not any UNUSED_NOT_FATAL

hazard unused-words-block failure
  says Words leave or enter the block in which clang lets unused words pass.
  clang: any UNUSED_BLOCK ; last UNUSED_FATAL > UNUSED_NOT_FATAL ; not any SILENT_UNUSED ; not last UNUSED_OFF > UNUSED_ON
  clang: any UNUSED_BLOCK ; last FATAL > NOT_FATAL ; not any SILENT_UNUSED ; not last UNUSED_OFF > UNUSED_ON ; not any UNUSED_FATAL ; not any UNUSED_NOT_FATAL

hazard diagnostics-file side-file
  says The file of diagnostics holds other warnings, or in another order.
  clang: any DIAGNOSTICS_FILE ; language assembler
  clang: any DIAGNOSTICS_FILE ; plusplus ; extension c ; not any LANGUAGE
  clang: any DIAGNOSTICS_FILE ; any NEED ; not any DEPENDENCY_RULES
  clang: any DIAGNOSTICS_FILE ; any TARGET ; not any NEED
  clang: any DIAGNOSTICS_FILE ; any OBJC_FLAG ; not before LANGUAGE > INPUT
  clang: any DIAGNOSTICS_FILE ; before unknown * | kind pass-through pass-through-path > flag -imultilib -stdlib
  clang: any DIAGNOSTICS_FILE ; before UNUSED > flag -fno-working-directory -remap
  clang: any DIAGNOSTICS_FILE ; before UNUSED > DEPENDENCY_FILE ; not any DEPENDENCY_RULES
  clang: any DIAGNOSTICS_FILE ; before kind arch > UNUSED ; not apple

hazard remarks-file side-file
  says The file of optimization remarks is named after the object and not after the input.
  clang: any flag -foptimization-record-passes & value * ! \e ; not any OUTPUT

hazard diagnostics-file-dropped failure
  says Gcc stops at the flag for a file of diagnostics, which the built command lacks.
  gcc: any kind serialize-diagnostics

hazard color-forgotten messages
  says Messages are coloured, though the command line says never.
  gcc, clang: last COLOR_NEVER > COLOR
  gcc: any unknown -fdiagnostics-plain-output

hazard c-as-cxx-unsaid messages
  says The warning is missing that a file of C is compiled as C++.
  clang: plusplus ; extension c ; not any LANGUAGE

hazard unused-words-said messages
  says Clang warns of other words as unused.
  clang: language assembler ; not any COLOR ; not any SILENT_UNUSED ; not last UNUSED_OFF > UNUSED_ON
  clang: language assembler ; two COLOR ; not any SILENT_UNUSED ; not last UNUSED_OFF > UNUSED_ON
  clang: language assembler ; any kind diagnostics-color & value * ! always | kind diagnostics-color-flag ; not any SILENT_UNUSED ; not last UNUSED_OFF > UNUSED_ON
  clang: language assembler ; any SPLIT ; not any SILENT_UNUSED ; not last UNUSED_OFF > UNUSED_ON
  clang: preprocessed ; any NEED ; not any USING_TARGET ; not any SILENT_UNUSED ; not last UNUSED_OFF > UNUSED_ON
  clang: any TARGET ; not any NEED ; not any USING_TARGET ; not any SILENT_UNUSED ; not last UNUSED_OFF > UNUSED_ON
  clang: any OBJC_FLAG ; not before LANGUAGE > INPUT ; not any SILENT_UNUSED ; not last UNUSED_OFF > UNUSED_ON

hazard inner-input failure
  says A word after -clang: is an input of its own, and one object is named for several files.
  clang-cl: inner any raw * | unknown -l* -Wl,* ; not inner any CL_CUT_SHORT

hazard inner-value-at object
  says A value that begins with @ stands apart in the built command, and the compiler reads the file of its name.
  clang, clang-cl: any flag -Xclang /Xclang ; inner any flag -i* -M* --vfsoverlay -vfsoverlay & joined & value @*

hazard inner-response-file object
  says A response file after -clang: is put in place, where clang-cl takes the word for a file.
  clang-cl: any flag -clang: /clang: -Xclang /Xclang & value @*

hazard response-file-in-environment object
  says A response file in CL or _CL_ is put in place, where clang-cl takes the word for a file.
  clang-cl: environment @*

hazard environment-split-otherwise object
  says Clang-cl splits the text of CL or _CL_ into other words.
  clang-cl: environment-split-otherwise

hazard nested-response-file object
  says A word of a response file names another, which clang-cl puts in place.
  clang-cl: word @*
  clang-cl: any flag -I /I & value @*

hazard response-file-quoting object
  says Response files are split as a flag says, which the rules do not follow.
  clang-cl: any unknown --rsp-quoting* ; file *

hazard object-beside-input object
  says The object is written beside the input, where clang-cl writes it where it runs.
  clang-cl: input */* ; not any CL_OUTPUT

hazard hidden-output object
  says The output's name begins with its only dot, which clang-cl takes for an extension.
  clang-cl: hidden-input ; not any CL_OUTPUT
  clang-cl: last kind output & hidden-value > kind output

hazard backslash-folder failure
  says A backslash ends a folder for the rules, and for clang-cl only on Windows.
  clang-cl: any kind output & value *\x5c

hazard intermediate-files side-file
  says Clang-cl keeps what goes from one of its steps to the next, since the built command names an output.
  clang-cl: language assembler-with-cpp ; not any flag -Fo /Fo
  clang-cl: any unknown --via-file-asm -via-file-asm ; not any flag -Fo /Fo ; not language assembler
  clang-cl: inner any unknown -fembed-bitcode* -rewrite-objc -via-file-asm* --via-file-asm*

hazard slash-before-xclang failure
  says Clang-cl knows -Xclang only with a dash, as the built command writes it.
  clang-cl: any flag /Xclang

hazard unused-words-dropped failure
  says Clang-cl stops at words that the built command lacks.
  clang-cl: any flag /deps
  clang-cl: any CL_FATAL ; any flag -deps
  clang-cl: any CL_DROPPED ; last UNUSED_FATAL > UNUSED_NOT_FATAL ; not any CL_SILENT ; not last UNUSED_OFF > UNUSED_ON
  clang-cl: any CL_DROPPED ; last flag -WX /WX | unknown -Werror > flag -WX- /WX- | unknown -Wno-error ; not any CL_SILENT ; not last UNUSED_OFF > UNUSED_ON ; not any UNUSED_FATAL ; not any UNUSED_NOT_FATAL

hazard order-of-warnings messages
  says Warnings of unused words come in another order.
  clang-cl: inner before unknown * > flag -MF -MQ -MT

hazard command-shown messages
  says Messages show the built command in place of the given one, and of gcc names of temporary files, which are others at each run.
  gcc, clang: any unknown -v --verbose
"##;
